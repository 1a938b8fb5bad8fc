// Numbers of at most 19 digits, with leading zeros or without.
ghost use Rattle.std.specs.Prelude.{◌≡◌, ◌↔◌, IsSome, IfSome};
ghost use Rattle.std.specs.Str.Parse.{digits_value};
ghost use Rattle.iam_names.specs.Digits.{IsDigits};

use crate::bytes::all_digits;

/// The number that 1 to 19 digits give.
#[tactic(auto, using(crate::proofs::Parsing::digits_read))]
pub fn read_digits(text: &str) -> Option<u64>
    ensures form { IsSome result ↔ IsDigits text.now }
    ensures value { IfSome result (λ number. number ≡ digits_value 10 text.now) }
{
    let bytes = text.as_bytes();
    if bytes.is_empty() || bytes.len() > 19 || !all_digits(bytes) {
        return None;
    }
    let Ok(number) = text.parse::<u64>() else {
        return None;
    };
    Some(number)
}
