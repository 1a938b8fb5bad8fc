ghost use Rattle.std.specs.Prelude.{◌≡◌, ◌≢◌, ◌<◌, ◌≤◌, length, slice_index, IfOk, IsUtf8};
ghost use Rattle.std.specs.Char.{is_digit, digit_value};
ghost use Rattle.std.specs.List.{prefix_len};
ghost use Rattle.cel_tree.specs.Spelling.{is_letter, is_word_byte};
ghost use Rattle.cel_lexeme.specs.Lexeme.{is_quote, is_raw_mark};

use iam_text::{OutOfMemory, Text};
use std::alloc::Global;

/// The byte at a place, or 0 past the end.
pub fn byte(z: &[u8], at: usize) -> u8
    ensures value { result ≡ slice_index z.now at }
    ensures within { result ≢ 0 → at < length z.now }
{
    if at < z.len() { z[at] } else { 0 }
}

pub fn is_letter(b: u8) -> bool
    ensures { result ≡ is_letter b }
{
    b.is_ascii_alphabetic() || b == b'_'
}

pub fn is_word_byte(b: u8) -> bool
    ensures { result ≡ is_word_byte b }
{
    is_letter(b) || b.is_ascii_digit()
}

pub fn is_quote(b: u8) -> bool
    ensures { result ≡ is_quote b }
{
    b == b'"' || b == b'\''
}

pub fn is_raw_mark(b: u8) -> bool
    ensures { result ≡ is_raw_mark b }
{
    b == b'r' || b == b'R'
}

/// The value of a digit or a letter, from 0 for `0` to 35 for `z`, and 36 for any other byte.
pub fn digit_value(b: u8) -> u8
    ensures value { result ≡ digit_value b }
    ensures bound { result ≤ 36 }
{
    match b {
        b'0'..=b'9' => b - b'0',
        b'A'..=b'Z' => b - b'A' + 10,
        b'a'..=b'z' => b - b'a' + 10,
        _ => 36,
    }
}

pub fn is_digit(b: u8, base: u8) -> bool
    ensures { result ≡ is_digit b base }
{
    digit_value(b) < base
}

/// How many word bytes stand at the front.
pub fn word_len(z: &[u8]) -> usize
    ensures value { result ≡ prefix_len is_word_byte z.now }
    ensures within { result ≤ length z.now }
{
    let mut n = 0;
    while n < z.len() && is_word_byte(z[n]) {
        n += 1;
    }
    n
}

/// How many digits of a base stand at the front.
pub fn digits_len(base: u8, z: &[u8]) -> usize
    ensures value { result ≡ prefix_len (λ b. is_digit b base) z.now }
    ensures within { result ≤ length z.now }
{
    let mut n = 0;
    while n < z.len() && is_digit(z[n], base) {
        n += 1;
    }
    n
}

/// The text of bytes that are one.
pub fn text(alloc: Global, bytes: &[u8]) -> Result<Text, OutOfMemory>
    requires { IsUtf8 bytes.now }
    ensures { IfOk result (λ t. t ≡ bytes.now) }
{
    match std::str::from_utf8(bytes) {
        Ok(text) => Text::of(alloc, text),
        Err(_) => unreachable!(),
    }
}
