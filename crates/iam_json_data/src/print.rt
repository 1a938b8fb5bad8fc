// What is printed.
ghost use Rattle.std.specs.Prelude.{◌≡◌, map, IfOk, false};
ghost use Rattle.serde_json.specs.Data.{Data};
ghost use Rattle.serde_json.specs.View.{view};
ghost use Rattle.serde_json.specs.Written.{has_float};
ghost use Rattle.iam_json_data.specs.Printed.{printed, list_data};

use iam_text::{OutOfMemory, Text};
use serde_json::{Value, push};
use std::alloc::Global;

/// What is shown in bodies and rows.
pub trait ToJson {
    /// The data that it is shown as.
    ghost shown: { Self → Data };

    fn to_json(&self, alloc: Global) -> Result<Value, OutOfMemory>
        ensures { IfOk result (λ v. view v ≡ shown self.now) };
}

/// A list of things as a JSON array.
pub fn list_value<T: ToJson>(alloc: Global, things: &[T]) -> Result<Value, OutOfMemory>
    ensures { IfOk result (λ v. view v ≡ list_data T.shown things.now) }
{
    Ok(Value::Array(shown_items(alloc, things)?))
}

fn shown_items<T: ToJson>(alloc: Global, things: &[T]) -> Result<Vec<Value>, OutOfMemory>
    ensures { IfOk result (λ v. map view v.items ≡ map T.shown things.now) }
{
    let mut items = Vec::new(alloc);
    for thing in things {
        let item = thing.to_json(alloc)?;
        push(&mut items, item)?;
    }
    Ok(items)
}

/// The compact text of a value. Every body and row is printed here.
pub fn text_of(alloc: Global, value: &Value) -> Result<Text, OutOfMemory>
    requires { has_float (view value.now) ≡ false }
    ensures { IfOk result (λ text. text ≡ printed (view value.now)) }
{
    Ok(Text::from(value.to_string(alloc)?))
}
