ghost use Rattle.std.specs.Prelude.{◌≡◌, ◌<◌, ◌≤◌, ◌+◌, length, IfSome};
ghost use Rattle.cel_lexeme.specs.Lexeme.{escape_code, hexadecimal_len};
ghost use Rattle.cel_lexeme.specs.Front.{escape_at, escape_digits, beyond};

use crate::bytes::{digits_len, is_digit};
use crate::numbers::number;

/// What a backslash with one more character stands for.
fn escape_code(b: u8) -> Option<u64>
    ensures { result ≡ escape_code b }
{
    match b {
        b'a' => Some(7),
        b'b' => Some(8),
        b'f' => Some(12),
        b'n' => Some(10),
        b'r' => Some(13),
        b't' => Some(9),
        b'v' => Some(11),
        b'\\' | b'?' | b'"' | b'\'' | b'`' => Some(u64::from(b)),
        _ => None,
    }
}

/// How many hexadecimal digits the escape has.
fn hexadecimal_len(b: u8) -> Option<usize>
    ensures { result ≡ hexadecimal_len b }
{
    match b {
        b'x' | b'X' => Some(2),
        b'u' => Some(4),
        b'U' => Some(8),
        _ => None,
    }
}

fn escape_digits(base: u8, count: usize, z: &[u8]) -> Option<u64>
    requires { 0 < base }
    ensures value { result ≡ escape_digits base count z.now }
    ensures within { IfSome result (λ _. count ≤ length z.now) }
{
    if count > z.len() {
        return None;
    }
    let digits = &z[..count];
    if digits_len(base, digits) != count {
        return None;
    }
    Some(number(base, digits))
}

/// Behind a backslash: the code point of an escape, and how many bytes it takes there.
pub fn escape_at(z: &[u8]) -> Option<(u64, usize)>
    ensures value { result ≡ escape_at z.now }
    ensures within { IfSome result (λ escape. (0 < escape.1) × (escape.1 ≤ length z.now) × (escape.0 ≤ beyond)) }
{
    let [mark, more @ ..] = z else {
        return None;
    };
    if let Some(code) = escape_code(*mark) {
        return Some((code, 1));
    }
    if let Some(count) = hexadecimal_len(*mark) {
        let code = escape_digits(16, count, more)?;
        return Some((code, count + 1));
    }
    if !is_digit(*mark, 4) {
        return None;
    }
    let code = escape_digits(8, 3, z)?;
    Some((code, 3))
}
