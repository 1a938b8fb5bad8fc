// The date and the time of day at a time, on the calendar of `jiff`.
ghost use Rattle.std.specs.Prelude.{◌≡◌, ◌+ℤ◌};
ghost use Rattle.cel_types.specs.Bounds.{nanos_of_minutes};
ghost use Rattle.cel_types.specs.Calendar.{part_of};
ghost use Rattle.cel_meaning.specs.Dates.{part_outcome};
ghost use Rattle.cel_meaning.specs.Results.{outcome};

use crate::time::{is_time, nanos_of_minutes};
use cel_types::TimePart;
use cel_value::{EvalFault, Value};
use jiff_core::civil::DateTime;

const NANOS_A_MILLISECOND: u32 = 1_000_000;

// `getDate` counts days of a month from 1, as the calendar does; all else that is counted is counted from 0.
fn part_of(part: TimePart, at: DateTime) -> i64
    ensures { result ≡ part_of part at }
{
    match part {
        TimePart::FullYear => i64::from(at.date.year),
        TimePart::Month => i64::from(at.date.month - 1),
        TimePart::Date => i64::from(at.date.day),
        TimePart::DayOfMonth => i64::from(at.date.day - 1),
        TimePart::DayOfWeek => i64::from(at.date.weekday().to_sunday_zero_offset()),
        TimePart::DayOfYear => i64::from(at.date.day_of_year() - 1),
        TimePart::Hours => i64::from(at.time.hour),
        TimePart::Minutes => i64::from(at.time.minute),
        TimePart::Seconds => i64::from(at.time.second),
        TimePart::Milliseconds => i64::from(at.time.subsec_nanosecond / NANOS_A_MILLISECOND),
    }
}

// A part of a time in UTC.
fn part(part: TimePart, time: i128) -> Result<Value, EvalFault>
    ensures { outcome result ≡ part_outcome part time }
{
    if !is_time(time) {
        return Err(EvalFault::Range);
    }
    let at = DateTime::from_nanosecond_in_range(time);
    Ok(Value::Int(part_of(part, at)))
}

/// A part of a time in a zone whose clock is so many minutes ahead of UTC.
pub fn part_in(part_asked: TimePart, time: i128, minutes: i16) -> Result<Value, EvalFault>
    ensures { outcome result ≡ part_outcome part_asked (time +ℤ nanos_of_minutes minutes) }
{
    match time.checked_add(nanos_of_minutes(minutes)) {
        Some(shifted) => part(part_asked, shifted),
        None => Err(EvalFault::Range),
    }
}
