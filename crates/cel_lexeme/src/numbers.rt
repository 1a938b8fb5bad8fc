ghost use Rattle.std.specs.Prelude.{◌≡◌, ◌<◌, ◌≤◌, ◌+◌, ◌*◌, ◌^◌, min, length, slice_index, true};
ghost use Rattle.std.specs.Char.{is_ascii_digit, digit_value};
ghost use Rattle.cel_lexeme.specs.Lexeme.{number, number_lexeme};
ghost use Rattle.cel_lexeme.specs.Front.{beyond, number_at, digits_at};

use crate::Lexeme;
use crate::bytes::{byte, digit_value, digits_len, is_digit};
use cel_tree::TokenKind;

const LIMIT: u64 = 1 << 63;

/// The number that digits write, or 2^63 + 1 for any larger one.
pub fn number(base: u8, digits: &[u8]) -> u64
    requires { 0 < base }
    ensures { result ≡ min (number base digits.now) beyond }
{
    let mut n: u64 = 0;
    for digit in digits {
        n = next(n, base, *digit);
    }
    n
}

fn next(n: u64, base: u8, digit: u8) -> u64
    requires { n ≤ beyond }
    ensures { result ≡ min (base * n + digit_value digit) beyond }
{
    let next = u128::from(base) * u128::from(n) + u128::from(digit_value(digit));
    if next <= u128::from(LIMIT) {
        next as u64
    } else {
        LIMIT + 1
    }
}

fn number_lexeme(n: u64) -> Lexeme
    ensures { result ≡ number_lexeme n }
{
    if n <= LIMIT {
        Lexeme::Token(TokenKind::Number(n))
    } else {
        Lexeme::Bad
    }
}

fn digits_at(base: u8, before: usize, z: &[u8]) -> (Lexeme, usize)
    requires base { 0 < base }
    requires fits { before + length z.now < 2 ^ 64 }
    ensures value { result ≡ digits_at base before z.now }
    ensures within { result.1 ≤ before + length z.now }
{
    let count = digits_len(base, z);
    (number_lexeme(number(base, &z[..count])), before + count)
}

/// The number at a digit.
#[tactic(auto, unfolding(crate::specs::Front::number_at))]
pub fn number_at(z: &[u8]) -> (Lexeme, usize)
    requires { is_ascii_digit (slice_index z.now 0) ≡ true }
    ensures value { result ≡ number_at z.now }
    ensures within { result.1 ≤ length z.now }
{
    if byte(z, 0) == b'0' && byte(z, 1) == b'x' && is_digit(byte(z, 2), 16) {
        digits_at(16, 2, &z[2..])
    } else {
        digits_at(10, 0, z)
    }
}
