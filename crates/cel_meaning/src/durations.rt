// What `duration` reads.
ghost use Rattle.std.specs.Prelude.{◌≡◌, ◌*◌, ◌<◌, ◌≤◌, ◌^◌, length, IfSome, IsTrue, pos, neg_ℤ};
ghost use Rattle.std.specs.Option.{ForSome, option_map};
ghost use Rattle.cel_types.specs.TimeText.{behind_part, digits_at, duration_outcome, fraction_at, behind_digits, is_part, length_of_text, magnitude_of, part_nanos, parts_nanos, unit_at, unit_name, unit_nanos};
ghost use Rattle.cel_meaning.specs.Results.{outcome};

use crate::scan::{
    WHOLE_DIGITS, begins_with, behind, behind_digits, behind_fraction, digits_at, fraction_at,
    fraction_nanos, front, has_fraction, letters_len, value_of,
};
use crate::time::checked_length;
use cel_types::TimeUnit;
use cel_value::{EvalFault, Value};

const UNITS: [TimeUnit; 6] = [
    TimeUnit::Hour,
    TimeUnit::Minute,
    TimeUnit::Second,
    TimeUnit::Millisecond,
    TimeUnit::Microsecond,
    TimeUnit::Nanosecond,
];

fn unit_name(unit: TimeUnit) -> &'static str
    ensures { result.now ≡ unit_name unit }
{
    match unit {
        TimeUnit::Hour => "h",
        TimeUnit::Minute => "m",
        TimeUnit::Second => "s",
        TimeUnit::Millisecond => "ms",
        TimeUnit::Microsecond => "us",
        TimeUnit::Nanosecond => "ns",
    }
}

fn unit_nanos(unit: TimeUnit) -> u64
    ensures value { result ≡ unit_nanos unit }
    ensures bound { result ≤ 3_600_000_000_000 }
{
    match unit {
        TimeUnit::Hour => 3_600_000_000_000,
        TimeUnit::Minute => 60_000_000_000,
        TimeUnit::Second => 1_000_000_000,
        TimeUnit::Millisecond => 1_000_000,
        TimeUnit::Microsecond => 1_000,
        TimeUnit::Nanosecond => 1,
    }
}

// The letters of the unit of the part at the front.
fn unit_at(text: &[u8]) -> &[u8]
    ensures { result.now ≡ unit_at text.entry.now }
{
    let rest = behind_fraction(behind_digits(text));
    front(rest, letters_len(rest))
}

fn behind_part(text: &[u8]) -> &[u8]
    ensures { result.now ≡ behind_part text.entry.now }
{
    behind(behind_fraction(behind_digits(text)), unit_at(text).len())
}

fn is_part(text: &[u8]) -> bool
    ensures value { result ≡ is_part text.now }
    ensures whole { IsTrue result → length (digits_at text.now) ≤ 18 }
    ensures fraction { IsTrue result → length (fraction_at (behind_digits text.now)) ≤ 9 }
{
    let digits = digits_at(text).len();
    1 <= digits && digits <= WHOLE_DIGITS && has_fraction(behind_digits(text))
}

// The nanoseconds of the part at the front.
fn part_nanos(nanos: u64, text: &[u8]) -> u128
    requires whole { length (digits_at text.now) ≤ 18 }
    requires fraction { length (fraction_at (behind_digits text.now)) ≤ 9 }
    requires unit { nanos ≤ 3_600_000_000_000 }
    ensures value { result ≡ part_nanos nanos text.now }
    ensures bound { result < 10 ^ 31 }
{
    let whole = u128::from(value_of(digits_at(text))) * u128::from(nanos);
    whole + fraction_nanos(nanos, fraction_at(behind_digits(text)))
}

// The nanoseconds of all parts of a text, whose units are some of these, in this order.
fn parts_nanos(units: &[TimeUnit], text: &[u8]) -> Option<u128>
    requires { length units.now ≤ 6 }
    ensures value { result ≡ parts_nanos units.now text.now }
    ensures bound { IfSome result (λ nanos. nanos ≤ length units.now * 10 ^ 31) }
{
    let [unit, others @ ..] = units else {
        return if text.is_empty() { Some(0) } else { None };
    };
    if unit_at(text) != unit_name(*unit).as_bytes() {
        return parts_nanos(others, text);
    }
    if !is_part(text) {
        return None;
    }
    let rest = parts_nanos(others, behind_part(text))?;
    Some(part_nanos(unit_nanos(*unit), text) + rest)
}

fn magnitude_of(text: &[u8]) -> Option<u128>
    ensures value { result ≡ magnitude_of text.now }
    ensures bound { IfSome result (λ nanos. nanos ≤ 6 * 10 ^ 31) }
{
    if text == b"0".as_slice() {
        return Some(0);
    }
    if text.is_empty() {
        return None;
    }
    parts_nanos(&UNITS, text)
}

fn before_now(nanos: Option<u128>) -> Option<i128>
    requires { ForSome nanos (λ n. n ≤ 6 * 10 ^ 31) }
    ensures { result ≡ option_map (λ n. neg_ℤ (pos n)) nanos }
{
    match nanos {
        Some(nanos) => Some(-(nanos as i128)),
        None => None,
    }
}

fn length_of_text(text: &[u8]) -> Option<i128>
    ensures { result ≡ length_of_text text.now }
{
    if begins_with(b'-', text) {
        return before_now(magnitude_of(behind(text, 1)));
    }
    let nanos = magnitude_of(text)?;
    Some(nanos as i128)
}

/// The length of time that a text gives.
pub fn duration(text: &str) -> Result<Value, EvalFault>
    ensures { outcome result ≡ duration_outcome text.now }
{
    match length_of_text(text.as_bytes()) {
        Some(nanos) => checked_length(nanos),
        None => Err(EvalFault::BadDuration),
    }
}
