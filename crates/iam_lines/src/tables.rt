//! The catalogue, tables, facts and rows. The kinds are
//!
//! - `catalogue`: how many permissions and predefined roles there are;
//! - `groups EMAIL EMAIL ..`: how many groups a binding names whose members are these groups and all users;
//! - `row ROW`, which is `PART NAME BODY`: whether the row is kept, byte for byte, or bad;
//! - `writes ROW ; ROW`: the writes that put the fact of the first row and cut that of the second;
//! - `tables ROW ; ROW ..`: of how many facts their tables are, with the first rule that they break, or the place of the first bad
//!   row;
//! - `nodes ASKED ; ROW ; ROW ..`: what these tables tell of a node, by numbers: `folders NODE` and `projects NODE` ask for its ACTIVE
//!   children, `way NODE` for the way up from it.
//!
//! In rows of the last two `<FIRST-LAST:PART>` stands for the part once for each number, with the number in place of `#` and the one
//! before in place of `^`.
use crate::facts::tell_rows;
use crate::rows::{tell_fate, tell_writes};
use crate::words::cut;
use iam_catalogue::Catalogue;
use iam_names::{Email, Member, RoleName};
use iam_readings::count_groups;
use iam_text::{List, OutOfMemory, Text};
use iam_types::Binding;
use std::alloc::Global;
use std::fmt::Write;

// Each call stands alone: what the catalogue promises of its lists names all of their rows.
fn built_in(alloc: Global) -> Result<Catalogue, OutOfMemory> {
    Catalogue::built_in(alloc)
}

fn permission_count(catalogue: &Catalogue) -> usize {
    catalogue.permissions().len()
}

fn role_count(catalogue: &Catalogue) -> usize {
    catalogue.roles().len()
}

fn tell_catalogue(alloc: Global, out: &mut String) -> Result<(), OutOfMemory> {
    let catalogue = built_in(alloc)?;
    let permissions = permission_count(&catalogue);
    let roles = role_count(&catalogue);
    write!(out, "{permissions} permissions, {roles} roles")?;
    Ok(())
}

// What is no email is no group.
fn groups(alloc: Global, words: &str) -> Result<List<Member>, OutOfMemory> {
    let mut members = List::new(alloc);
    for word in words.split(' ') {
        if let Some(email) = Email::read(alloc, word)? {
            members.push(Member::Group(email))?;
        }
    }
    members.push(Member::AllUsers)?;
    Ok(members)
}

// How many groups a binding with these members names.
fn count(alloc: Global, members: List<Member>) -> Result<u64, OutOfMemory> {
    let role = RoleName::Predefined(Text::of(alloc, "viewer")?);
    let mut bindings = List::new(alloc);
    bindings.push(Binding {
        role,
        members,
        condition: None,
    })?;
    count_groups(alloc, bindings.as_slice())
}

fn tell_groups(alloc: Global, words: &str, out: &mut String) -> Result<(), OutOfMemory> {
    let groups = groups(alloc, words)?;
    let count = count(alloc, groups)?;
    write!(out, "{count}")?;
    Ok(())
}

/// Puts what a line comes to behind a text, or answers false where the kind is none of these.
pub fn answer(
    alloc: Global,
    kind: &str,
    words: &str,
    out: &mut String,
) -> Result<bool, OutOfMemory> {
    match kind {
        "catalogue" => tell_catalogue(alloc, out)?,
        "groups" => tell_groups(alloc, words, out)?,
        "row" => tell_fate(alloc, words, out)?,
        "writes" => tell_writes(alloc, words, out)?,
        "tables" => tell_rows(alloc, "", words, out)?,
        "nodes" => {
            let (asked, rows) = cut(words, " ; ");
            tell_rows(alloc, asked, rows, out)?;
        }
        _ => return Ok(false),
    }
    Ok(true)
}
