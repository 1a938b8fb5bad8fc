// Tag functions.
ghost use Rattle.std.specs.Prelude.{◌≡◌, ◌++◌, Option, codes, if◌then◌else◌, is_some};
ghost use Rattle.std.specs.Fmt.{decimal};
ghost use Rattle.std.specs.Str.{bytes_eq};
ghost use Rattle.cel_types.specs.Tags.{decimal_number, has_id, has_short, key_number, key_with_id, of_key, tag_outcome};
ghost use Rattle.cel_value.specs.Keys.{IsAnswer};
ghost use Rattle.cel_value.specs.declared.context.KeyFact.{KeyFact};
ghost use Rattle.cel_meaning.specs.Results.{outcome};

use crate::texts::without_front;
use cel_types::TagFunction;
use cel_value::{EvalFault, Facts, KeyAnswer, Value};
use itoa::Buffer;

// A number, where the text is what is written of it.
fn as_written(number: u64, text: &str) -> Option<u64>
    ensures { result ≡ (if bytes_eq (decimal number) text.now then Some number else None) }
{
    let mut decimal = Buffer::new();
    if decimal.format(number) == text {
        Some(number)
    } else {
        None
    }
}

// The number below 2^64 whose decimal the text is.
fn decimal_number(text: &str) -> Option<u64>
    ensures { result ≡ decimal_number text.now }
{
    match text.parse::<u64>() {
        Ok(number) => as_written(number, text),
        Err(_) => None,
    }
}

// The number of the id `tagKeys/N`.
fn key_number(id: &str) -> Option<u64>
    ensures { result ≡ key_number id.now }
{
    match without_front("tagKeys/", id) {
        Some(number) => decimal_number(number),
        None => None,
    }
}

// Whether the id is `tagValues/N` with this number.
fn is_value_id(number: u64, id: &str) -> bool
    ensures { result ≡ bytes_eq (codes "tagValues/" ++ decimal number) id.now }
{
    match without_front("tagValues/", id) {
        Some(rest) => {
            let mut decimal = Buffer::new();
            decimal.format(number) == rest
        }
        None => false,
    }
}

fn key_with_id<'a, F: Facts>(id: &str, facts: &'a F) -> KeyAnswer<'a>
    ensures { IsAnswer (key_with_id id.now (F.context facts.entry.now).keys) result }
{
    match key_number(id) {
        Some(number) => facts.key_numbered(number),
        None => KeyAnswer::Unknown,
    }
}

// Whether a value of the key is in force.
fn is_bound(answer: KeyAnswer<'_>) -> Result<Value, EvalFault>
    ensures { (key : Option KeyFact) → IsAnswer key answer.entry → outcome result ≡ of_key key (λ fact. is_some fact) }
{
    match answer {
        KeyAnswer::Unknown => Err(EvalFault::UnknownTag),
        KeyAnswer::Unbound => Ok(Value::Bool(false)),
        KeyAnswer::Bound { .. } => Ok(Value::Bool(true)),
    }
}

// Whether the value of the key that is in force has this short name.
fn has_short(answer: KeyAnswer<'_>, wanted: &str) -> Result<Value, EvalFault>
    ensures { (key : Option KeyFact) → IsAnswer key answer.entry → outcome result ≡ of_key key (has_short wanted.now) }
{
    match answer {
        KeyAnswer::Unknown => Err(EvalFault::UnknownTag),
        KeyAnswer::Unbound => Ok(Value::Bool(false)),
        KeyAnswer::Bound { short, .. } => Ok(Value::Bool(short == wanted)),
    }
}

// Whether the value of the key that is in force has this id.
fn has_id(answer: KeyAnswer<'_>, wanted: &str) -> Result<Value, EvalFault>
    ensures { (key : Option KeyFact) → IsAnswer key answer.entry → outcome result ≡ of_key key (has_id wanted.now) }
{
    match answer {
        KeyAnswer::Unknown => Err(EvalFault::UnknownTag),
        KeyAnswer::Unbound => Ok(Value::Bool(false)),
        KeyAnswer::Bound { number, .. } => Ok(Value::Bool(is_value_id(number, wanted))),
    }
}

/// What a tag function of a key comes to, with what its value is to be, where it asks for that.
pub fn tag<F: Facts>(
    function: TagFunction,
    key: &str,
    asked: &str,
    facts: &F,
) -> Result<Value, EvalFault>
    ensures { outcome result ≡ tag_outcome (F.context facts.now) function key.now asked.now }
{
    match function {
        TagFunction::MatchTag => has_short(facts.key_named(key), asked),
        TagFunction::MatchTagId => has_id(key_with_id(key, facts), asked),
        TagFunction::HasTagKey => is_bound(facts.key_named(key)),
        TagFunction::HasTagKeyId => is_bound(key_with_id(key, facts)),
    }
}
