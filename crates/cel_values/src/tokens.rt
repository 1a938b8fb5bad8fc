// How many tokens a text has.
use cel_lexer::{Stop, tokens};
use iam_text::OutOfMemory;
use std::alloc::Global;

// A line of the input has no line feed in it, and the others are not seen there.
fn text_of(alloc: Global, words: &str) -> Result<String, OutOfMemory> {
    let mut text = String::new(alloc);
    for letter in words.chars() {
        let meant = match letter {
            '␉' => '\t',
            '␊' => '\n',
            '␌' => '\x0c',
            '␍' => '\r',
            other => other,
        };
        text.push(meant)?;
    }
    Ok(text)
}

// No count where the text is too long or is not cut.
fn count(alloc: Global, text: &str) -> Result<Option<usize>, OutOfMemory> {
    if text.len() > 2048 {
        return Ok(None);
    }
    match tokens(alloc, text) {
        Ok(found) => Ok(Some(found.len())),
        Err(Stop::Fault(_)) => Ok(None),
        Err(Stop::OutOfMemory) => Err(OutOfMemory),
    }
}

/// How many tokens the text has that words stand for.
pub fn count_line(alloc: Global, words: &str) -> Result<String, OutOfMemory> {
    let text = text_of(alloc, words)?;
    match count(alloc, text.as_str())? {
        Some(count) => Ok(count.to_string(alloc)?),
        None => Ok(String::from_str(alloc, "?")?),
    }
}
