// What the fields of a message name: its caller, and the revision that it asks for.
ghost use Rattle.std.specs.Prelude.{IfOk};
ghost use Rattle.iam_routes.specs.Routed.{IsCallerOf, IsFloorOf};

use iam_names::Caller;
use iam_text::OutOfMemory;
use iam_wire::{Field, number_of};
use std::alloc::Global;

/// Digits of a revision.
const MAX_DIGITS: usize = 19;

/// The caller that the header names.
pub fn caller_of(alloc: Global, field: &Field) -> Result<Option<Caller>, OutOfMemory>
    ensures { IfOk result (IsCallerOf field.now) }
{
    match field {
        Field::Absent => Ok(Some(Caller::Anonymous)),
        Field::One(text) => Caller::read(alloc, text.as_str()),
        Field::Bad => Ok(None),
    }
}

/// The revision that the header asks for, if it asks for one; nothing where it is no number.
pub fn floor_of(field: &Field) -> Option<Option<u64>>
    ensures { IsFloorOf field.now result }
{
    match field {
        Field::Absent => Some(None),
        Field::One(text) => match number_of(text.as_str().as_bytes(), MAX_DIGITS) {
            Some(number) => Some(Some(number)),
            None => None,
        },
        Field::Bad => None,
    }
}
