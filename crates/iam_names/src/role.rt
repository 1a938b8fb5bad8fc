// Names of roles.
ghost use Rattle.std.specs.Prelude.{◌≡◌, ◌↔◌, IfOk, IsTrue, string_bytes};
ghost use Rattle.iam_names.specs.Role.{role_text, IsPredefinedRole, IsRoleName};
ghost use Rattle.iam_names.specs.Reading.{IsRead, ReadsBack};

use crate::bytes::all_role_bytes;
use crate::limits::PREDEFINED_ROLE_BYTES;
use crate::text::{behind, prefixed};
use iam_text::{OutOfMemory, Text};
use std::alloc::{AllocError, Global};
use std::fmt::Write;

/// The name of a role: a predefined one by what stands behind `roles/`, or a custom one of the organisation or of
/// a project.
#[derive(Clone, PartialEq, Eq, Drop)]
pub enum RoleName {
    Predefined(Text),
    OfOrganization { number: u64, id: Text },
    OfProject { project: Text, id: Text },
}

fn is_predefined_role(text: &str) -> bool
    ensures { IsTrue result ↔ IsPredefinedRole text.now }
{
    let bytes = text.as_bytes();
    if bytes.is_empty() || bytes.len() > PREDEFINED_ROLE_BYTES {
        return false;
    }
    all_role_bytes(bytes)
}

fn organization_role_text(alloc: Global, number: u64, id: &Text) -> Result<String, AllocError>
    ensures { IfOk result (λ text. string_bytes text ≡ role_text (RoleName.OfOrganization number id.now)) }
{
    let mut text = String::from_str(alloc, "organizations/")?;
    write!(text, "{number}")?;
    text.push_str("/roles/")?;
    text.push_str(id.as_str())?;
    Ok(text)
}

fn project_role_text(alloc: Global, project: &Text, id: &Text) -> Result<String, AllocError>
    ensures { IfOk result (λ text. string_bytes text ≡ role_text (RoleName.OfProject project.now id.now)) }
{
    let mut text = String::from_str(alloc, "projects/")?;
    text.push_str(project.as_str())?;
    text.push_str("/roles/")?;
    text.push_str(id.as_str())?;
    Ok(text)
}

impl RoleName {
    /// The role that a text names: a predefined one.
    pub fn read(alloc: Global, text: &str) -> Result<Option<RoleName>, OutOfMemory>
        ensures read { IfOk result (IsRead IsRoleName role_text text.now) }
        ensures back { IfOk result (ReadsBack IsRoleName role_text text.now) }
    {
        let Some(id) = behind("roles/", text) else {
            return Ok(None);
        };
        if !is_predefined_role(id) {
            return Ok(None);
        }
        Ok(Some(RoleName::Predefined(Text::of(alloc, id)?)))
    }

    pub fn text(&self, alloc: Global) -> Result<Text, OutOfMemory>
        ensures { IfOk result (λ text. text ≡ role_text self.now) }
    {
        match self {
            RoleName::Predefined(id) => prefixed(alloc, "roles/", id.as_str()),
            RoleName::OfOrganization { number, id } => Ok(Text::from(organization_role_text(
                alloc, *number, id,
            )?)),
            RoleName::OfProject { project, id } => Ok(Text::from(project_role_text(
                alloc, project, id,
            )?)),
        }
    }
}

pub fn same_role_name(a: &RoleName, b: &RoleName) -> bool
    ensures { IsTrue result ↔ (a.now ≡ b.now) }
{
    *a == *b
}

pub fn copy_role_name(role: &RoleName) -> Result<RoleName, OutOfMemory>
    ensures { IfOk result (λ copy. copy ≡ role.now) }
{
    match role.clone() {
        Ok(copy) => Ok(copy),
        Err(_) => Err(OutOfMemory),
    }
}
