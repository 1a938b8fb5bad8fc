ghost use Rattle.std.specs.Prelude.{◌≡◌, ◌<◌, ◌≤◌, length, IfOk, IfSome};
ghost use Rattle.cel_answers.specs.Escapes.{letter_byte, byte_of, digits_byte, escape_at, front, StandsFor};

use std::alloc::{AllocError, Global};

// The byte that a letter stands for behind a backslash.
fn letter_byte(letter: u8) -> Option<u8>
    ensures { result ≡ letter_byte letter }
{
    match letter {
        b'n' => Some(b'\n'),
        b'r' => Some(b'\r'),
        b't' => Some(b'\t'),
        b'\\' => Some(b'\\'),
        _ => None,
    }
}

// The byte that two hexadecimal digits write.
fn byte_of(high: u8, low: u8) -> Option<u8>
    ensures { result ≡ byte_of high low }
{
    let high = char::from(high).to_digit(16)?;
    let low = char::from(low).to_digit(16)?;
    Some((16 * high + low) as u8)
}

fn digits_byte(line: &[u8]) -> Option<u8>
    ensures value { result ≡ digits_byte line.now }
    ensures within { IfSome result (λ _. 2 ≤ length line.now) }
{
    match line {
        [high, low, ..] => byte_of(*high, *low),
        _ => None,
    }
}

// The byte of the escape behind a backslash, and how many bytes it takes there.
fn escape_at(line: &[u8]) -> Option<(u8, usize)>
    ensures value { result ≡ escape_at line.now }
    ensures within { IfSome result (λ escape. escape.1 ≤ length line.now) }
{
    let [letter, rest @ ..] = line else {
        return None;
    };
    if *letter == b'x' {
        let byte = digits_byte(rest)?;
        return Some((byte, 3));
    }
    let byte = letter_byte(*letter)?;
    Some((byte, 1))
}

// The byte that the front of a line stands for, and how many bytes behind the first one belong to it.
fn front(first: u8, rest: &[u8]) -> (u8, usize)
    ensures value { result ≡ front first rest.now }
    ensures within { result.1 ≤ length rest.now }
{
    if first != b'\\' {
        return (first, 0);
    }
    match escape_at(rest) {
        Some(escape) => escape,
        None => (b'\\', 0),
    }
}

/// The bytes that a line stands for.
pub fn unescaped(alloc: Global, line: &[u8]) -> Result<Vec<u8>, AllocError>
    ensures { IfOk result (λ bytes. StandsFor line.now bytes.items) }
{
    let mut found = Vec::new(alloc);
    let mut left = line;
    'line: while let [first, rest @ ..] = left {
        let (byte, more) = front(*first, rest);
        found.push(byte)?;
        left = &rest[more..];
    }
    Ok(found)
}
