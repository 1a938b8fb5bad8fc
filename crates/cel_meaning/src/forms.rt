// Functions and methods, applied to the values of their parts.
ghost use Rattle.std.specs.Prelude.{◌≡◌, nat_eq, ℕ, ℤ, List};
ghost use Rattle.std.specs.Option.{option_copied};
ghost use Rattle.cel_value.specs.declared.value.Outcome.{Outcome};
ghost use Rattle.std.specs.List.{ends_with, starts_with};
ghost use Rattle.cel_types.specs.Extract.{extracted};
ghost use Rattle.cel_types.specs.TimeText.{duration_outcome, timestamp_outcome};
ghost use Rattle.cel_value.specs.declared.value.Outcome.TheVariants.{Given};
ghost use Rattle.cel_value.specs.declared.value.Value.TheVariants as value;
ghost use Rattle.cel_meaning.specs.Apply.{has_only, of_text, of_text_first, of_texts, of_time, shifted_part, truth};
ghost use Rattle.cel_meaning.specs.Results.{Gives, at_text, at_time, outcome};

use crate::attributes::string;
use crate::durations::duration;
use crate::lists::all_in;
use crate::parts::part_in;
use crate::stop::{NO_VALUE, Stop};
use crate::texts::{ends_with, extracted, starts_with};
use crate::timestamps::timestamp;
use cel_types::TimePart;
use cel_value::{EvalFault, Value};
use std::alloc::Global;

fn only_text(values: &[Value]) -> Option<&str>
    ensures { (f : List ℕ → Outcome) → of_text f values.entry.now ≡ at_text f (option_copied result) }
{
    match values {
        [Value::Str(text)] => Some(text.as_str()),
        _ => None,
    }
}

pub fn timestamp_of(values: &[Value]) -> Result<Value, EvalFault>
    ensures { outcome result ≡ of_text timestamp_outcome values.now }
{
    match only_text(values) {
        Some(text) => timestamp(text),
        None => Err(NO_VALUE),
    }
}

pub fn duration_of(values: &[Value]) -> Result<Value, EvalFault>
    ensures { outcome result ≡ of_text duration_outcome values.now }
{
    match only_text(values) {
        Some(text) => duration(text),
        None => Err(NO_VALUE),
    }
}

pub fn begins(values: &[Value]) -> Result<Value, EvalFault>
    ensures { outcome result ≡ of_texts (λ t u. truth (starts_with nat_eq t u)) values.now }
{
    match values {
        [Value::Str(text), Value::Str(front)] => {
            Ok(Value::Bool(starts_with(text.as_str(), front.as_str())))
        }
        _ => Err(NO_VALUE),
    }
}

pub fn ends(values: &[Value]) -> Result<Value, EvalFault>
    ensures { outcome result ≡ of_texts (λ t u. truth (ends_with nat_eq t u)) values.now }
{
    match values {
        [Value::Str(text), Value::Str(back)] => {
            Ok(Value::Bool(ends_with(text.as_str(), back.as_str())))
        }
        _ => Err(NO_VALUE),
    }
}

/// The template's literal stands behind the text.
pub fn extract(alloc: Global, prefix: &str, suffix: &str, values: &[Value]) -> Result<Value, Stop>
    ensures { Gives (of_text_first (λ t. Given (value.Str (extracted prefix.now suffix.now t))) values.now) result }
{
    match values {
        [Value::Str(text), _] => string(alloc, extracted(text.as_str(), prefix, suffix)),
        _ => Err(Stop::Fault(NO_VALUE)),
    }
}

pub fn has_only(values: &[Value]) -> Result<Value, EvalFault>
    ensures { outcome result ≡ has_only values.now }
{
    match values {
        [Value::Many(items), Value::Many(others)] => {
            Ok(Value::Bool(all_in(items.as_slice(), others.as_slice())))
        }
        _ => Err(NO_VALUE),
    }
}

// A zone's literal may stand behind the time.
fn time_of(values: &[Value]) -> Option<i128>
    ensures { (f : ℤ → Outcome) → of_time f values.now ≡ at_time f result }
{
    match values {
        [Value::Time(time)] => Some(*time),
        [Value::Time(time), _] => Some(*time),
        _ => None,
    }
}

/// A part of a time in a zone that is so many minutes ahead of UTC.
pub fn part_in_zone(asked: TimePart, minutes: i16, values: &[Value]) -> Result<Value, EvalFault>
    ensures { outcome result ≡ of_time (λ t. shifted_part asked minutes t) values.now }
{
    match time_of(values) {
        Some(time) => part_in(asked, time, minutes),
        None => Err(NO_VALUE),
    }
}
