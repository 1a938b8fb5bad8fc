// Members of bodies.
ghost use Rattle.std.specs.Prelude.{◌≡◌, ℕ, List as Items, Result, Ok, Err, option_map};
ghost use Rattle.serde_json.specs.Data.{Data};
ghost use Rattle.serde_json.specs.View.{view, items_view};
ghost use Rattle.iam_json_data.specs.Reading.{Gives, ReadsItems, ReadsList, ReadsMember, ReadsRequired, ReadsNumber, present};

use crate::stop::{BodyStop, bad_here};
use iam_text::{List, Text};
use serde_json::Value;
use std::alloc::Global;

/// What a member of a body can be read as.
pub trait FromJson: Sized {
    /// What is said of data: the values that it is read as, and the paths inside it that are bad.
    ghost reads: { Data → Result Self (Items ℕ) → Type 0 };

    fn from_json(alloc: Global, value: &Value) -> Result<Self, BodyStop>
        ensures { Gives (reads (view value.now)) result };
}

// What stands at a name; null counts as absent.
pub fn present_at<'a>(value: &'a Value, name: &str) -> Option<&'a Value>
    ensures { option_map (λ v. view v.now) result ≡ present name.now (view value.now) }
{
    match value.get(name) {
        Some(found) => {
            if found.is_null() {
                return None;
            }
            Some(found)
        }
        None => None,
    }
}

/// A member that may be absent.
pub fn read_member<T: FromJson>(
    alloc: Global,
    name: &str,
    value: &Value,
) -> Result<Option<T>, BodyStop>
    ensures { Gives (ReadsMember T.reads name.now (present name.now (view value.now))) result }
{
    match present_at(value, name) {
        None => Ok(None),
        Some(found) => match T::from_json(alloc, found) {
            Ok(read) => Ok(Some(read)),
            Err(stop) => Err(stop.under(alloc, name)),
        },
    }
}

/// A member that has to be there.
pub fn read_required<T: FromJson>(alloc: Global, name: &str, value: &Value) -> Result<T, BodyStop>
    ensures { Gives (ReadsRequired T.reads name.now (present name.now (view value.now))) result }
{
    match present_at(value, name) {
        None => {
            let path = Text::of(alloc, name)?;
            Err(BodyStop::BadField { path })
        }
        Some(found) => match T::from_json(alloc, found) {
            Ok(read) => Ok(read),
            Err(stop) => Err(stop.under(alloc, name)),
        },
    }
}

fn read_items<T: FromJson + Drop>(alloc: Global, items: &[Value]) -> Result<List<T>, BodyStop>
    ensures { Gives (ReadsItems T.reads 0 (items_view items.now)) result }
{
    let mut list = List::new(alloc);
    for (place, item) in items.iter().enumerate() {
        match T::from_json(alloc, item) {
            Ok(read) => list.push(read)?,
            Err(stop) => return Err(stop.at_item(alloc, place)),
        }
    }
    Ok(list)
}

impl<T: FromJson + Drop> FromJson for List<T> {
    ghost reads = { ReadsList T.reads };

    fn from_json(alloc: Global, value: &Value) -> Result<List<T>, BodyStop> {
        match value.as_array() {
            Some(items) => read_items(alloc, items),
            None => Err(bad_here(alloc)),
        }
    }
}

impl FromJson for u64 {
    ghost reads = { ReadsNumber };

    fn from_json(alloc: Global, value: &Value) -> Result<u64, BodyStop> {
        match value.as_u64() {
            Some(number) => Ok(number),
            None => Err(bad_here(alloc)),
        }
    }
}
