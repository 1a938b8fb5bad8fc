ghost use Rattle.std.specs.Prelude.{◌≡◌};
ghost use Rattle.cel_meaning.specs.Apply.{apply};
ghost use Rattle.cel_meaning.specs.Borrowed.{meant};
ghost use Rattle.cel_meaning.specs.Results.{Gives, at};

use crate::attributes::{attribute, string, strings};
use crate::forms::{begins, duration_of, ends, extract, has_only, part_in_zone, timestamp_of};
use crate::head::Head;
use crate::operators::{done, negation, of_two, opposite};
use crate::stop::{NO_VALUE, Stop};
use crate::tags::tag;
use cel_value::{Facts, Value};
use iam_text::List;
use std::alloc::Global;

/// What a node of this head comes to, all of whose parts have values.
pub fn apply<F: Facts>(
    alloc: Global,
    head: Head<'_>,
    values: List<Value>,
    facts: &F,
) -> Result<Value, Stop>
    ensures { Gives (apply (at (F.context facts.now)) (meant head.entry) values) result }
{
    match head {
        Head::Bool(truth) => Ok(Value::Bool(truth)),
        Head::Int(number) => Ok(Value::Int(number)),
        Head::Str(text) => string(alloc, text),
        Head::Attribute(found) => attribute(alloc, found, facts),
        Head::Tag(function, key, asked) => done(tag(function, key, asked, facts)),
        Head::Modified => strings(alloc, facts.modified()),
        Head::Timestamp => done(timestamp_of(values.as_slice())),
        Head::Duration => done(duration_of(values.as_slice())),
        Head::StartsWith => done(begins(values.as_slice())),
        Head::EndsWith => done(ends(values.as_slice())),
        Head::Extract(prefix, suffix) => extract(alloc, prefix, suffix, values.as_slice()),
        Head::HasOnly => done(has_only(values.as_slice())),
        Head::Part(part, minutes) => done(part_in_zone(part, minutes, values.as_slice())),
        Head::List => Ok(Value::Many(values)),
        Head::Not => done(negation(values.as_slice())),
        Head::Neg => done(opposite(values.as_slice())),
        Head::Two(op) => of_two(alloc, op, values.as_slice()),
        Head::Pick => Err(Stop::Fault(NO_VALUE)),
    }
}
