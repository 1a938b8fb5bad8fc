// What stands at the front of a text that gives a time or a length of time.
ghost use Rattle.std.specs.Prelude.{◌≡◌, ◌*◌, ◌<◌, ◌≤◌, ◌^◌, length, take, drop, slice_index, IsTrue};
ghost use Rattle.std.specs.Char.{digit_value, is_ascii_digit, is_ascii_lowercase};
ghost use Rattle.std.specs.List.{prefix_len};
ghost use Rattle.std.specs.Str.Parse.{AllDigits, digits_value};
ghost use Rattle.cel_types.specs.TimeText.{begins_with, behind_digits, behind_fraction, digits_at, fraction_at, fraction_nanos, has_fraction};

// The most digits of a whole number, and of a fraction.
pub const WHOLE_DIGITS: usize = 18;

const FRACTION_DIGITS: usize = 9;

/// The byte at a place, or 0 past the end.
pub fn byte(text: &[u8], at: usize) -> u8
    ensures { result ≡ slice_index text.now at }
{
    if at < text.len() { text[at] } else { 0 }
}

/// The first bytes, as many as there are.
pub fn front(text: &[u8], count: usize) -> &[u8]
    ensures { result.now ≡ take count text.entry.now }
{
    if count < text.len() {
        &text[..count]
    } else {
        text
    }
}

/// What stands behind the first bytes.
pub fn behind(text: &[u8], count: usize) -> &[u8]
    ensures { result.now ≡ drop count text.entry.now }
{
    if count < text.len() {
        &text[count..]
    } else {
        &[]
    }
}

pub fn begins_with(byte: u8, text: &[u8]) -> bool
    ensures { result ≡ begins_with byte text.now }
{
    match text {
        [first, ..] => *first == byte,
        [] => false,
    }
}

fn digits_len(text: &[u8]) -> usize
    ensures value { result ≡ prefix_len is_ascii_digit text.now }
    ensures within { result ≤ length text.now }
{
    let mut count = 0;
    while count < text.len() && text[count].is_ascii_digit() {
        count += 1;
    }
    count
}

/// How many small letters stand at the front.
pub fn letters_len(text: &[u8]) -> usize
    ensures value { result ≡ prefix_len is_ascii_lowercase text.now }
    ensures within { result ≤ length text.now }
{
    let mut count = 0;
    while count < text.len() && text[count].is_ascii_lowercase() {
        count += 1;
    }
    count
}

pub fn digits_at(text: &[u8]) -> &[u8]
    ensures value { result.now ≡ digits_at text.entry.now }
    ensures digits { AllDigits 10 result.now }
{
    front(text, digits_len(text))
}

pub fn behind_digits(text: &[u8]) -> &[u8]
    ensures { result.now ≡ behind_digits text.entry.now }
{
    behind(text, digits_at(text).len())
}

pub fn fraction_at(text: &[u8]) -> &[u8]
    ensures value { result.now ≡ fraction_at text.entry.now }
    ensures digits { AllDigits 10 result.now }
{
    if begins_with(b'.', text) {
        digits_at(behind(text, 1))
    } else {
        &[]
    }
}

pub fn behind_fraction(text: &[u8]) -> &[u8]
    ensures { result.now ≡ behind_fraction text.entry.now }
{
    if begins_with(b'.', text) {
        behind_digits(behind(text, 1))
    } else {
        text
    }
}

pub fn has_fraction(text: &[u8]) -> bool
    ensures value { result ≡ has_fraction text.now }
    ensures short { IsTrue result → length (fraction_at text.now) ≤ 9 }
{
    if !begins_with(b'.', text) {
        return true;
    }
    let digits = fraction_at(text).len();
    1 <= digits && digits <= FRACTION_DIGITS
}

fn digit_value(digit: u8) -> u8
    ensures value { result ≡ digit_value digit }
    ensures bound { result ≤ 36 }
{
    match char::from(digit).to_digit(36) {
        Some(value) => value as u8,
        None => 36,
    }
}

/// The number that digits write.
pub fn value_of(digits: &[u8]) -> u64
    requires digits { AllDigits 10 digits.now }
    requires short { length digits.now ≤ 18 }
    ensures value { result ≡ digits_value 10 digits.now }
    ensures bound { result < 10 ^ 18 }
{
    let mut value = 0;
    for digit in digits {
        value = value * 10 + u64::from(digit_value(*digit));
    }
    value
}

/// The nanoseconds of a fraction of a unit, without what is below a nanosecond.
pub fn fraction_nanos(nanos: u64, digits: &[u8]) -> u128
    requires digits { AllDigits 10 digits.now }
    requires short { length digits.now ≤ 9 }
    requires unit { nanos ≤ 3_600_000_000_000 }
    ensures value { result ≡ fraction_nanos nanos digits.now }
    ensures bound { result ≤ 36 * 10 ^ 29 }
{
    u128::from(value_of(digits)) * u128::from(nanos) / 10u128.pow(digits.len() as u32)
}
