// The context in which the word `value` has conditions evaluated.
use cel_value::{Context, KeyFact, ValueFact};
use iam_text::{List, Moment, OutOfMemory, Text};
use std::alloc::Global;

// 2026-01-01T00:00:00Z
const MOMENT: Moment = Moment(1_767_225_600);

fn key(
    alloc: Global,
    number: u64,
    name: &str,
    value: Option<ValueFact>,
) -> Result<KeyFact, OutOfMemory> {
    Ok(KeyFact {
        number,
        name: Text::of(alloc, name)?,
        value,
    })
}

fn value(alloc: Global, number: u64, short: &str) -> Result<ValueFact, OutOfMemory> {
    Ok(ValueFact {
        number,
        short: Text::of(alloc, short)?,
    })
}

// The key `1000/env` stands twice, first with a value.
fn keys(alloc: Global) -> Result<List<KeyFact>, OutOfMemory> {
    let mut keys = List::new(alloc);
    let production = value(alloc, 2, "prod")?;
    keys.push(key(alloc, 1, "1000/env", Some(production))?)?;
    keys.push(key(alloc, 3, "1000/team", None)?)?;
    keys.push(key(alloc, 4, "1000/env", None)?)?;
    Ok(keys)
}

fn modified(alloc: Global) -> Result<List<Text>, OutOfMemory> {
    let mut roles = List::new(alloc);
    roles.push(Text::of(alloc, "roles/editor")?)?;
    roles.push(Text::of(alloc, "roles/viewer")?)?;
    Ok(roles)
}

/// A project at the beginning of 2026, with three tag keys, under a change of a policy that modifies two roles.
pub fn stated_context(alloc: Global) -> Result<Context, OutOfMemory> {
    Ok(Context {
        resource_kind: Text::of(alloc, "cloudresourcemanager.googleapis.com/Project")?,
        resource_service: Text::of(alloc, "cloudresourcemanager.googleapis.com")?,
        resource_name: Text::of(alloc, "projects/5")?,
        moment: MOMENT,
        keys: keys(alloc)?,
        principal_kind: Text::of(alloc, "iam.googleapis.com/WorkspaceIdentity")?,
        principal_subject: Text::of(alloc, "ada@example.com")?,
        modified: modified(alloc)?,
    })
}
