// A body as a value.
ghost use Rattle.iam_json_data.specs.Body.{BodyGives, ReadsWhole};

use crate::stop::BodyStop;
use serde_json::{Map, Value};
use std::alloc::Global;

/// The value that a body spells. Where a member is repeated the last value stays.
pub fn read_body(alloc: Global, body: &[u8]) -> Result<Value, BodyStop>
    ensures { BodyGives ReadsWhole body.now result }
{
    if body.is_empty() {
        return Ok(Value::Object(Map::new(alloc)));
    }
    match Value::from_slice(alloc, body) {
        Ok(value) => Ok(value),
        Err(e) => {
            if e.is_memory() {
                return Err(BodyStop::OutOfMemory);
            }
            Err(BodyStop::BadJson)
        }
    }
}
