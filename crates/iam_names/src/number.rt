// Numbers of nodes.
ghost use Rattle.std.specs.Prelude.{◌≡◌, ◌↔◌, ◌++◌, IsSome, IfSome, IsTrue};
ghost use Rattle.std.specs.Fmt.{decimal};
ghost use Rattle.std.specs.Str.Parse.{digits_value};
ghost use Rattle.iam_names.specs.Number.{HasNumberDigits, IsNodeNumber, IsNumber};
ghost use Rattle.iam_names.specs.Reading.{IsRead, ReadsBack};

use crate::bytes::all_digits;
use crate::limits::{LAST_NUMBER, NUMBER_DIGITS};
use crate::text::behind;

fn has_number_digits(text: &str) -> bool
    ensures { IsTrue result ↔ HasNumberDigits text.now }
{
    let bytes = text.as_bytes();
    if bytes.is_empty() || bytes.len() > NUMBER_DIGITS || bytes[0] == b'0' {
        return false;
    }
    all_digits(bytes)
}

// The value of the digits of a number.
#[tactic(auto, using(crate::proofs::Numbers::digits_parsed, crate::proofs::Numbers::digits_positive))]
fn value_of(text: &str) -> Option<u64>
    ensures form { IsSome result ↔ IsNumber text.now }
    ensures value { IfSome result (λ number. number ≡ digits_value 10 text.now) }
{
    if !has_number_digits(text) {
        return None;
    }
    let Ok(number) = text.parse::<u64>() else {
        return None;
    };
    if number > LAST_NUMBER {
        return None;
    }
    Some(number)
}

/// The number of a node that a text gives.
#[tactic(auto, using(crate::proofs::Numbers::number_read))]
pub fn read_number(text: &str) -> Option<u64>
    ensures form { IsSome result ↔ IsNumber text.now }
    ensures read { IsRead IsNodeNumber decimal text.now result }
    ensures back { ReadsBack IsNodeNumber decimal text.now result }
{
    value_of(text)
}

/// The number behind a prefix.
pub fn number_behind(prefix: &str, text: &str) -> Option<u64>
    ensures read { IsRead IsNodeNumber (λ number. prefix.now ++ decimal number) text.now result }
    ensures back { ReadsBack IsNodeNumber (λ number. prefix.now ++ decimal number) text.now result }
{
    read_number(behind(prefix, text)?)
}
