// The permissions of the catalogue.
ghost use Rattle.std.specs.Prelude.{◌≡◌, ◌++◌, IfOk, IsTrue, OnOk, codes, map, string_bytes};
ghost use Rattle.std.specs.List.{All, flat_map};
ghost use Rattle.iam_names.specs.Permission.{IsPermission};
ghost use Rattle.iam_model.specs.Catalogue.{is_permission, permission_of, permit_of, permits_of};
ghost use Rattle.iam_catalogue.specs.Lines.{line_of, IsNamed};

use crate::lines::CatalogueLine;
use iam_names::PermissionName;
use iam_text::{List, OutOfMemory, Text};
use iam_types::Permit;
use std::alloc::{AllocError, Global};

// Puts one more part of a name at the end, behind a dot.
fn push_part(text: &mut String, part: &str) -> Result<(), AllocError>
    ensures { OnOk result (string_bytes text.new ≡ string_bytes text.old ++ codes "." ++ part.now) }
{
    text.push_str(".")?;
    text.push_str(part)
}

fn permission_text(alloc: Global, line: &CatalogueLine, verb: &str) -> Result<String, AllocError>
    ensures { IfOk result (λ text. string_bytes text ≡ permission_of (line_of line.now) verb.now) }
{
    let mut text = String::from_str(alloc, line.service)?;
    push_part(&mut text, line.resource)?;
    push_part(&mut text, verb)?;
    Ok(text)
}

fn formed_permission(alloc: Global, text: &str) -> Result<PermissionName, OutOfMemory>
    requires { IsPermission text.now }
    ensures { IfOk result (λ name. name ≡ text.now) }
{
    match PermissionName::read(alloc, text)? {
        Some(name) => Ok(name),
        None => unreachable!(),
    }
}

/// The permission of the catalogue with this name.
#[tactic(auto, using(crate::proofs::Named::known_is_formed))]
pub fn permission_named(alloc: Global, text: &str) -> Result<PermissionName, OutOfMemory>
    requires { IsTrue (is_permission text.now) }
    ensures { IfOk result (λ name. name ≡ text.now) }
{
    formed_permission(alloc, text)
}

/// The permission of a line with this verb.
pub fn permission(
    alloc: Global,
    line: &CatalogueLine,
    verb: &str,
) -> Result<PermissionName, OutOfMemory>
    requires { IsPermission (permission_of (line_of line.now) verb.now) }
    ensures { IfOk result (λ name. name ≡ permission_of (line_of line.now) verb.now) }
{
    let text = permission_text(alloc, line, verb)?;
    formed_permission(alloc, text.as_str())
}

fn permit(alloc: Global, line: &CatalogueLine, verb: &str) -> Result<Permit, OutOfMemory>
    requires { IsPermission (permission_of (line_of line.now) verb.now) }
    ensures { IfOk result (λ permit. permit ≡ permit_of (line_of line.now) verb.now) }
{
    Ok(Permit {
        name: permission(alloc, line, verb)?,
        host: Text::of(alloc, line.host)?,
        level: line.level,
        deniable: line.deniable,
        least: line.least,
    })
}

fn push_permits(
    alloc: Global,
    permits: &mut List<Permit>,
    line: &CatalogueLine,
) -> Result<(), OutOfMemory>
    requires { IsNamed (line_of line.now) }
    ensures { OnOk result (permits.new ≡ permits.old ++ permits_of (line_of line.now)) }
{
    for verb in line.verbs {
        permits.push(permit(alloc, line, verb)?)?;
    }
    Ok(())
}

/// The permissions of the lines.
pub fn permits_in(alloc: Global, lines: &[CatalogueLine]) -> Result<List<Permit>, OutOfMemory>
    requires { All IsNamed (map line_of lines.now) }
    ensures { IfOk result (λ permits. permits ≡ flat_map permits_of (map line_of lines.now)) }
{
    let mut permits = List::new(alloc);
    for line in lines {
        push_permits(alloc, &mut permits, line)?;
    }
    Ok(permits)
}
