// Emails.
ghost use Rattle.std.specs.Prelude.{◌≡◌, ◌↔◌, ◌++◌, IfOk, IsTrue};
ghost use Rattle.iam_names.specs.Email.{IsEmail, IsLocalPart, email_text, domain_of};
ghost use Rattle.iam_names.specs.Reading.{IsRead, ReadsBack};

use crate::bytes::all_local_bytes;
use crate::domain::is_domain;
use crate::limits::{LOCAL_PART_BYTES, NAME_BYTES};
use crate::text::behind;
use iam_text::{OutOfMemory, Text};
use std::alloc::Global;
use std::marker::Model;

/// An email. Emails are compared by their bytes.
#[derive(Clone, PartialEq, Eq, Drop)]
pub struct Email {
    text: Text,
}

impl Model for Email {
    ghost use Rattle.std.specs.Prelude.{List, ℕ};

    ghost Value = { List ℕ };

    ghost view = { λ e. e.text };

    ghost inverse = { λ bytes. record { text = bytes } };
}

fn is_local_part(text: &str) -> bool
    ensures { IsTrue result ↔ IsLocalPart text.now }
{
    let bytes = text.as_bytes();
    if bytes.is_empty() || bytes.len() > LOCAL_PART_BYTES {
        return false;
    }
    all_local_bytes(bytes)
}

fn is_email(text: &str) -> bool
    ensures { IsTrue result ↔ IsEmail text.now }
{
    match text.split_once('@') {
        Some((local, domain)) => text.len() <= NAME_BYTES
            && is_local_part(local)
            && is_domain(domain),
        None => false,
    }
}

impl Email {
    /// The email that a text is.
    pub fn read(alloc: Global, text: &str) -> Result<Option<Email>, OutOfMemory>
        ensures read { IfOk result (IsRead IsEmail email_text text.now) }
        ensures back { IfOk result (ReadsBack IsEmail email_text text.now) }
    {
        if !is_email(text) {
            return Ok(None);
        }
        Ok(Some(Email {
            text: Text::of(alloc, text)?,
        }))
    }

    pub fn text(&self, alloc: Global) -> Result<Text, OutOfMemory>
        ensures { IfOk result (λ text. text ≡ email_text self.now) }
    {
        Text::of(alloc, self.as_str())
    }

    pub fn as_str(&self) -> &str
        ensures { result.now ≡ email_text self.now }
    {
        self.text.as_str()
    }

    /// What stands behind `@`.
    pub fn domain(&self) -> &str
        ensures { result.now ≡ domain_of self.now }
    {
        match self.text.as_str().split_once('@') {
            Some((_, domain)) => domain,
            None => "",
        }
    }
}

/// The email behind a prefix.
pub fn email_behind(alloc: Global, prefix: &str, text: &str) -> Result<Option<Email>, OutOfMemory>
    ensures { IfOk result (IsRead IsEmail (λ email. prefix.now ++ email) text.now) }
{
    match behind(prefix, text) {
        Some(email) => Email::read(alloc, email),
        None => Ok(None),
    }
}

pub fn same_email(a: &Email, b: &Email) -> bool
    ensures { IsTrue result ↔ (a.now ≡ b.now) }
{
    *a == *b
}

pub fn copy_email(email: &Email) -> Result<Email, OutOfMemory>
    ensures { IfOk result (λ copy. copy ≡ email.now) }
{
    match email.clone() {
        Ok(copy) => Ok(copy),
        Err(_) => Err(OutOfMemory),
    }
}
