// Parts of lines, and text that is repeated in them.
use iam_text::OutOfMemory;
use std::alloc::Global;

/// What stands before and behind the first mark; without one all stands before it.
pub fn cut<'a>(text: &'a str, mark: &str) -> (&'a str, &'a str) {
    match text.split_once(mark) {
        Some(parts) => parts,
        None => (text, ""),
    }
}

// Puts a part with a number in place of `#` and the one before in place of `^` behind a text.
fn push_numbered(
    alloc: Global,
    part: &str,
    number: u32,
    out: &mut String,
) -> Result<(), OutOfMemory> {
    let before = number.saturating_sub(1).to_string(alloc)?;
    let part = part.replace(alloc, '^', before.as_str())?;
    let number = number.to_string(alloc)?;
    let part = part.as_str().replace(alloc, '#', number.as_str())?;
    out.push_str(part.as_str())?;
    Ok(())
}

// What is not `FIRST-LAST:PART` repeats nothing.
fn push_repeated(alloc: Global, repetition: &str, out: &mut String) -> Result<(), OutOfMemory> {
    let (range, part) = cut(repetition, ":");
    let (first, last) = cut(range, "-");
    let (Ok(first), Ok(last)) = (first.parse::<u32>(), last.parse::<u32>()) else {
        return Ok(());
    };
    for number in first..=last {
        push_numbered(alloc, part, number, out)?;
    }
    Ok(())
}

/// The text that words stand for: `<FIRST-LAST:PART>` stands for the part once for each number, with the number in place of `#` and
/// the one before in place of `^`.
pub fn repeated(alloc: Global, words: &str) -> Result<String, OutOfMemory> {
    let mut text = String::new(alloc);
    for piece in words.split('<') {
        match piece.split_once('>') {
            Some((repetition, rest)) => {
                push_repeated(alloc, repetition, &mut text)?;
                text.push_str(rest)?;
            }
            None => text.push_str(piece)?,
        }
    }
    Ok(text)
}
