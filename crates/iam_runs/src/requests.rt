// What stands in the input of a run, and its rows.
use crate::case::Case;
use iam_outer::{OutOfMemory, Row, Text};
use std::alloc::{AllocError, Global};
use std::fmt::Write;

// The rest of the first line, and the fields that each request has.
const FIELDS: &str =
    " HTTP/1.1\r\nHost: localhost:8080\r\nUser-Agent: curl/8.5.0\r\nAccept: */*\r\nContent-Type: application/json\r\n";

/// The first word, and the others.
pub fn parted(words: &str) -> (&str, &str) {
    words.split_once(' ').unwrap_or((words, ""))
}

// The number in front, and the words behind it.
fn counted(words: &str) -> (usize, &str) {
    let (number, rest) = parted(words);
    (number.parse::<usize>().unwrap_or(0), rest)
}

// The text with the place in it.
fn push_numbered(text: &mut String, one: &str, place: usize) -> Result<(), AllocError> {
    let Some((before, behind)) = one.split_once('#') else {
        return text.push_str(one);
    };
    text.push_str(before)?;
    write!(text, "{place:04}")?;
    text.push_str(behind)
}

fn numbered(alloc: Global, one: &str, place: usize) -> Result<Text, OutOfMemory> {
    let mut text = String::new(alloc);
    push_numbered(&mut text, one, place)?;
    Ok(Text::from(text))
}

/// `many N TEXT`.
pub fn set_many(alloc: Global, case: &mut Case, words: &str) -> Result<(), OutOfMemory> {
    let (count, one) = counted(words);
    let mut text = String::new(alloc);
    for place in 0..count {
        push_numbered(&mut text, one, place)?;
    }
    case.count = count;
    case.many = Text::from(text);
    Ok(())
}

// The text with what `*` stands for in its place.
fn spelled(alloc: Global, text: &str, many: &str) -> Result<String, AllocError> {
    let Some((before, behind)) = text.split_once('*') else {
        return String::from_str(alloc, text);
    };
    let mut whole = String::from_str(alloc, before)?;
    whole.push_str(many)?;
    whole.push_str(behind)?;
    Ok(whole)
}

fn row_of(alloc: Global, part: &str, name: &str, body: &str) -> Result<Row, OutOfMemory> {
    Ok(Row {
        part: Text::of(alloc, part)?,
        name: Text::of(alloc, name)?,
        body: Text::of(alloc, body)?,
    })
}

fn numbered_row(
    alloc: Global,
    part: &str,
    name: &str,
    body: &str,
    place: usize,
) -> Result<Row, OutOfMemory> {
    let name = numbered(alloc, name, place)?;
    let body = numbered(alloc, body, place)?;
    row_of(alloc, part, name.as_str(), body.as_str())
}

/// `row PART NAME BODY`: the row, or as many as `many` says.
pub fn push_rows(alloc: Global, case: &mut Case, words: &str) -> Result<(), OutOfMemory> {
    let (part, rest) = parted(words);
    let (name, body) = parted(rest);
    if !name.contains('#') {
        let body = spelled(alloc, body, case.many.as_str())?;
        return case.rows.push(row_of(alloc, part, name, body.as_str())?);
    }
    for place in 0..case.count {
        case.rows
            .push(numbered_row(alloc, part, name, body, place)?)?;
    }
    Ok(())
}

// The fields of who asks, and for which revision at least.
fn push_caller(text: &mut String, caller: &str, revision: &str) -> Result<(), AllocError> {
    if caller != "-" {
        write!(text, "x-iam-caller: {caller}\r\n")?;
    }
    if !revision.is_empty() {
        write!(text, "x-iam-min-revision: {revision}\r\n")?;
    }
    Ok(())
}

/// `ask CALLER METHOD TARGET BODY`, for a state of at least this revision, where one is given.
pub fn push_request(
    alloc: Global,
    case: &mut Case,
    revision: &str,
    words: &str,
) -> Result<(), OutOfMemory> {
    let (caller, rest) = parted(words);
    let (method, rest) = parted(rest);
    let (target, body) = parted(rest);
    let body = spelled(alloc, body, case.many.as_str())?;
    let size = body.len();
    let mut text = String::new(alloc);
    write!(text, "{method} {target}{FIELDS}")?;
    push_caller(&mut text, caller, revision)?;
    write!(text, "Content-Length: {size}\r\n\r\n{body}")?;
    case.input.push_all(text.as_bytes())
}

/// `text N TEXT`.
pub fn push_text(alloc: Global, case: &mut Case, words: &str) -> Result<(), OutOfMemory> {
    let (count, text) = counted(words);
    let text = text.replace(alloc, "\\r", "\r")?;
    let text = text.as_str().replace(alloc, "\\n", "\n")?;
    for _ in 0..count {
        case.input.push_all(text.as_bytes())?;
    }
    Ok(())
}

/// `no-text N`.
pub fn push_no_text(case: &mut Case, count: usize) -> Result<(), OutOfMemory> {
    for _ in 0..count {
        case.input.push(255)?;
    }
    Ok(())
}
