// Bindings of policies.
ghost use Rattle.serde_json.specs.View.{view};
ghost use Rattle.iam_json_data.specs.Reading.{Gives, present};
ghost use Rattle.iam_json_data.specs.Readers.{ReadsAbsent};

use crate::member::{FromJson, present_at, read_member, read_required};
use crate::stop::{BodyStop, bad_here};
use iam_text::{List, Text};
use iam_types::Binding;
use serde_json::Value;
use std::alloc::Global;

/// A member that may not be there.
pub fn read_absent(alloc: Global, name: &str, value: &Value) -> Result<(), BodyStop>
    ensures { Gives (ReadsAbsent name.now (present name.now (view value.now))) result }
{
    match present_at(value, name) {
        None => Ok(()),
        Some(_) => {
            let path = Text::of(alloc, name)?;
            Err(BodyStop::BadField { path })
        }
    }
}

impl FromJson for Binding {
    ghost use Rattle.iam_json_data.specs.Readers.{ReadsBinding};

    ghost reads = { ReadsBinding };

    fn from_json(alloc: Global, value: &Value) -> Result<Binding, BodyStop> {
        if !value.is_object() {
            return Err(bad_here(alloc));
        }
        let role = read_required(alloc, "role", value)?;
        let members = read_member(alloc, "members", value)?;
        // A condition is refused as a bad member until conditions are read.
        read_absent(alloc, "condition", value)?;
        Ok(Binding {
            role,
            members: members.unwrap_or(List::new(alloc)),
            condition: None,
        })
    }
}
