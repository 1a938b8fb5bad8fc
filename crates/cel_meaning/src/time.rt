// Times and lengths of time, in nanoseconds.
ghost use Rattle.std.specs.Prelude.{◌≡◌, ◌+ℤ◌, ◌-ℤ◌};
ghost use Rattle.cel_types.specs.Bounds.{is_length, is_time, length_outcome, nanos_of_minutes, nanos_of_seconds, time_outcome};
ghost use Rattle.cel_meaning.specs.Results.{length_or_range, outcome, time_or_range};

use cel_value::{EvalFault, Value};

const NANOS_A_SECOND: i128 = 1_000_000_000;

const SECONDS_A_MINUTE: i128 = 60;

// 0001-01-01T00:00:00Z
const FIRST_TIME: i128 = -62_135_596_800_000_000_000;

// 9999-12-31T23:59:59.999999999Z
const LAST_TIME: i128 = 253_402_300_799_999_999_999;

const LONGEST: i128 = 315_576_000_000_000_000_000;

pub fn is_time(time: i128) -> bool
    ensures { result ≡ is_time time }
{
    FIRST_TIME <= time && time <= LAST_TIME
}

fn is_length(length: i128) -> bool
    ensures { result ≡ is_length length }
{
    -LONGEST <= length && length <= LONGEST
}

/// The time, if it is within its range.
pub fn checked_time(time: i128) -> Result<Value, EvalFault>
    ensures { outcome result ≡ time_outcome time }
{
    if is_time(time) {
        Ok(Value::Time(time))
    } else {
        Err(EvalFault::Range)
    }
}

/// The length of time, if it is within its range.
pub fn checked_length(length: i128) -> Result<Value, EvalFault>
    ensures { outcome result ≡ length_outcome length }
{
    if is_length(length) {
        Ok(Value::Length(length))
    } else {
        Err(EvalFault::Range)
    }
}

fn time_of(nanos: Option<i128>) -> Result<Value, EvalFault>
    ensures { outcome result ≡ time_or_range nanos }
{
    match nanos {
        Some(nanos) => checked_time(nanos),
        None => Err(EvalFault::Range),
    }
}

fn length_of(nanos: Option<i128>) -> Result<Value, EvalFault>
    ensures { outcome result ≡ length_or_range nanos }
{
    match nanos {
        Some(nanos) => checked_length(nanos),
        None => Err(EvalFault::Range),
    }
}

/// The time that a length leads to from another.
pub fn later(time: i128, length: i128) -> Result<Value, EvalFault>
    ensures { outcome result ≡ time_outcome (time +ℤ length) }
{
    time_of(time.checked_add(length))
}

pub fn earlier(time: i128, length: i128) -> Result<Value, EvalFault>
    ensures { outcome result ≡ time_outcome (time -ℤ length) }
{
    time_of(time.checked_sub(length))
}

/// The sum of two lengths.
pub fn longer(length: i128, other: i128) -> Result<Value, EvalFault>
    ensures { outcome result ≡ length_outcome (length +ℤ other) }
{
    length_of(length.checked_add(other))
}

/// The difference of two lengths, or of two times.
pub fn between(from: i128, to: i128) -> Result<Value, EvalFault>
    ensures { outcome result ≡ length_outcome (to -ℤ from) }
{
    length_of(to.checked_sub(from))
}

pub fn nanos_of_seconds(seconds: i64) -> i128
    ensures { result ≡ nanos_of_seconds seconds }
{
    i128::from(seconds) * NANOS_A_SECOND
}

pub fn nanos_of_minutes(minutes: i16) -> i128
    ensures { result ≡ nanos_of_minutes minutes }
{
    i128::from(minutes) * (SECONDS_A_MINUTE * NANOS_A_SECOND)
}
