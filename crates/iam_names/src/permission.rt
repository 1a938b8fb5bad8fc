// Permissions, and groups of them.
ghost use Rattle.std.specs.Prelude.{◌≡◌, ◌↔◌, IfOk, IsTrue};
ghost use Rattle.std.specs.List.{All};
ghost use Rattle.iam_names.specs.Domain.{parts_of};
ghost use Rattle.iam_names.specs.Permission.{IsPermissionPart, IsPermission, permission_text, given_or_any, permission_group_text};
ghost use Rattle.iam_names.specs.Reading.{IsRead, ReadsBack};

use crate::bytes::all_letters_or_digits;
use crate::domain::count_parts;
use crate::limits::{PERMISSION_PART_BYTES, PERMISSION_PARTS};
use iam_text::{OutOfMemory, Text};
use std::alloc::Global;
use std::marker::Model;

/// A permission, as `resourcemanager.projects.get`. Permissions are compared by their bytes.
#[derive(Clone, PartialEq, Eq, Drop)]
pub struct PermissionName {
    text: Text,
}

impl Model for PermissionName {
    ghost use Rattle.std.specs.Prelude.{List, ℕ};

    ghost Value = { List ℕ };

    ghost view = { λ p. p.text };

    ghost inverse = { λ bytes. record { text = bytes } };
}

/// The permissions of a service with this resource and verb, where no resource or verb stands for all.
#[derive(Clone, PartialEq, Eq, Drop)]
pub struct PermissionGroup {
    pub host: Text,
    pub resource: Option<Text>,
    pub verb: Option<Text>,
}

fn is_permission_part(part: &str) -> bool
    ensures { IsTrue result ↔ IsPermissionPart part.now }
{
    let bytes = part.as_bytes();
    if bytes.is_empty() || bytes.len() > PERMISSION_PART_BYTES {
        return false;
    }
    all_letters_or_digits(bytes)
}

fn all_permission_parts(text: &str) -> bool
    ensures { IsTrue result ↔ All IsPermissionPart (parts_of text.now) }
{
    text.split('.').all(|part| is_permission_part(part))
}

fn is_permission(text: &str) -> bool
    ensures { IsTrue result ↔ IsPermission text.now }
{
    count_parts(text) == PERMISSION_PARTS && all_permission_parts(text)
}

fn given_or_any(part: &Option<Text>) -> &str
    ensures { result.now ≡ given_or_any part.now }
{
    match part {
        Some(part) => part.as_str(),
        None => "*",
    }
}

impl PermissionGroup {
    pub fn text(&self, alloc: Global) -> Result<Text, OutOfMemory>
        ensures { IfOk result (λ text. text ≡ permission_group_text self.now) }
    {
        let mut text = String::from_str(alloc, self.host.as_str())?;
        text.push_str("/")?;
        text.push_str(given_or_any(&self.resource))?;
        text.push_str(".")?;
        text.push_str(given_or_any(&self.verb))?;
        Ok(Text::from(text))
    }
}

impl PermissionName {
    /// The permission that a text is.
    pub fn read(alloc: Global, text: &str) -> Result<Option<PermissionName>, OutOfMemory>
        ensures read { IfOk result (IsRead IsPermission permission_text text.now) }
        ensures back { IfOk result (ReadsBack IsPermission permission_text text.now) }
    {
        if !is_permission(text) {
            return Ok(None);
        }
        Ok(Some(PermissionName {
            text: Text::of(alloc, text)?,
        }))
    }

    pub fn text(&self, alloc: Global) -> Result<Text, OutOfMemory>
        ensures { IfOk result (λ text. text ≡ permission_text self.now) }
    {
        Text::of(alloc, self.as_str())
    }

    pub fn as_str(&self) -> &str
        ensures { result.now ≡ permission_text self.now }
    {
        self.text.as_str()
    }
}

pub fn same_permission(a: &PermissionName, b: &PermissionName) -> bool
    ensures { IsTrue result ↔ (a.now ≡ b.now) }
{
    *a == *b
}

pub fn copy_permission(permission: &PermissionName) -> Result<PermissionName, OutOfMemory>
    ensures { IfOk result (λ copy. copy ≡ permission.now) }
{
    match permission.clone() {
        Ok(copy) => Ok(copy),
        Err(_) => Err(OutOfMemory),
    }
}

pub fn same_permission_group(a: &PermissionGroup, b: &PermissionGroup) -> bool
    ensures { IsTrue result ↔ (a.now ≡ b.now) }
{
    *a == *b
}

pub fn copy_permission_group(group: &PermissionGroup) -> Result<PermissionGroup, OutOfMemory>
    ensures { IfOk result (λ copy. copy ≡ group.now) }
{
    match group.clone() {
        Ok(copy) => Ok(copy),
        Err(_) => Err(OutOfMemory),
    }
}
