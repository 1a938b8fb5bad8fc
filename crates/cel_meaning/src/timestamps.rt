// What `timestamp` reads.
ghost use Rattle.std.specs.Prelude.{◌≡◌, ◌<◌, ◌≤◌, ◌*◌, ◌^◌, ◌+ℤ◌, ◌-ℤ◌, ◌*ℤ◌, pos};
ghost use Rattle.cel_types.specs.Bounds.{nanos_of_seconds};
ghost use Rattle.cel_types.specs.TimeText.{clock_of_text, clock_seconds, date_of_text, day_number, time_of_text, timestamp_outcome, utc_offset, with_offset};
ghost use Rattle.cel_meaning.specs.Results.{outcome};

use crate::scan::{
    behind, behind_fraction, byte, fraction_at, fraction_nanos, front, has_fraction,
};
use crate::time::{checked_time, nanos_of_seconds};
use cel_types::{offset_minutes, two_digits};
use cel_value::{EvalFault, Value};
use jiff_core::civil::Date;

const NANOS_A_SECOND: u64 = 1_000_000_000;

const SECONDS_A_DAY: i64 = 86_400;

// The number of a day of the calendar, if it has this day.
fn day_number(year: u16, month: u8, day: u8) -> Option<i32>
    requires year { year ≤ 9999 }
    requires month { month < 100 }
    requires day { day < 100 }
    ensures { result ≡ day_number year month day }
{
    match Date::new(year as i16, month as i8, day as i8) {
        Ok(date) => Some(date.to_unix_epoch_day()),
        Err(_) => None,
    }
}

fn clock_seconds(hour: u8, minute: u8, second: u8) -> Option<u32>
    ensures { result ≡ clock_seconds hour minute second }
{
    if hour <= 23 && minute <= 59 && second <= 59 {
        Some(3_600 * u32::from(hour) + 60 * u32::from(minute) + u32::from(second))
    } else {
        None
    }
}

fn date_of_text(text: &[u8]) -> Option<i32>
    ensures { result ≡ date_of_text text.now }
{
    let [a, b, c, d, dash, e, f, other, g, h] = text else {
        return None;
    };
    if *dash != b'-' {
        return None;
    }
    if *other != b'-' {
        return None;
    }
    let century = two_digits(*a, *b)?;
    let year = two_digits(*c, *d)?;
    let month = two_digits(*e, *f)?;
    let day = two_digits(*g, *h)?;
    day_number(100 * u16::from(century) + u16::from(year), month, day)
}

fn clock_of_text(text: &[u8]) -> Option<u32>
    ensures { result ≡ clock_of_text text.now }
{
    let [a, b, colon, c, d, other, e, f] = text else {
        return None;
    };
    if *colon != b':' {
        return None;
    }
    if *other != b':' {
        return None;
    }
    let hour = two_digits(*a, *b)?;
    let minute = two_digits(*c, *d)?;
    let second = two_digits(*e, *f)?;
    clock_seconds(hour, minute, second)
}

fn utc_offset(text: &[u8]) -> Option<i16>
    ensures { result ≡ utc_offset text.now }
{
    if text == b"Z".as_slice() {
        Some(0)
    } else {
        offset_minutes(text)
    }
}

// The seconds since 1970 of a second that a clock shows on a day, so many minutes ahead of UTC.
fn seconds_of(day: i32, clock: u32, minutes: i16) -> i64
    ensures { result ≡ day *ℤ pos 86_400 +ℤ pos clock -ℤ minutes *ℤ pos 60 }
{
    i64::from(day) * SECONDS_A_DAY + i64::from(clock) - i64::from(minutes) * 60
}

// The nanoseconds of seconds with a fraction.
fn nanos_of(seconds: i64, fraction: u128) -> i128
    requires { fraction ≤ 36 * 10 ^ 29 }
    ensures { result ≡ nanos_of_seconds seconds +ℤ pos fraction }
{
    nanos_of_seconds(seconds) + fraction as i128
}

// The nanoseconds since 1970 of a second that a clock shows on a day, with the fraction and the offset behind it.
fn with_offset(text: &[u8], day: i32, clock: u32) -> Option<i128>
    ensures { result ≡ with_offset text.now (day *ℤ pos 86_400 +ℤ pos clock) }
{
    if !has_fraction(text) {
        return None;
    }
    let minutes = utc_offset(behind_fraction(text))?;
    let fraction = fraction_nanos(NANOS_A_SECOND, fraction_at(text));
    Some(nanos_of(seconds_of(day, clock, minutes), fraction))
}

fn time_of_text(text: &[u8]) -> Option<i128>
    ensures { result ≡ time_of_text text.now }
{
    if byte(text, 10) != b'T' {
        return None;
    }
    let day = date_of_text(front(text, 10))?;
    let clock = clock_of_text(front(behind(text, 11), 8))?;
    with_offset(behind(text, 19), day, clock)
}

/// The time that a text gives.
pub fn timestamp(text: &str) -> Result<Value, EvalFault>
    ensures { outcome result ≡ timestamp_outcome text.now }
{
    match time_of_text(text.as_bytes()) {
        Some(nanos) => checked_time(nanos),
        None => Err(EvalFault::BadTime),
    }
}
