//! Etags and parts of bodies. What can't be read is `no JSON`, or `bad: ` and the path of the first bad member. The kinds are
//!
//! - `etag TEXT`: the number whose etag a text is, with the etag of that number as bytes and as it stands in a body, or `none`;
//! - `json-text TEXT`: how the text is printed that a JSON text spells;
//! - `number BODY`: the number at `n` in a body where nothing stands at `m`, or `none`; `number-bytes BYTE BYTE ..` for the body of
//!   these bytes;
//! - `permissions BODY`, `members BODY` and `bindings BODY`: the list at `list` in a body, shown again;
//! - `condition EXPRESSION ; TITLE ; DESCRIPTION`: how a binding of all users to `roles/viewer` under a condition is shown;
//! - `path PLACE INNER`: the path inside of an item of `list`, as it is seen from outside.
use crate::words::cut;
use iam_json_data::{
    BodyStop, FromJson, ToJson, etag_number, etag_text, etag_value, list_value, read_absent,
    read_body, read_member, read_required, text_of,
};
use iam_names::{Member, PermissionName, RoleName};
use iam_text::{List, OutOfMemory, Text, let_go};
use iam_types::{Binding, Condition};
use serde_json::Value;
use std::alloc::Global;

fn etag(alloc: Global, words: &str) -> Result<Text, OutOfMemory> {
    let Some(number) = etag_number(words) else {
        return Text::of(alloc, "none");
    };
    let bytes = etag_text(number);
    let bytes = std::str::from_utf8(bytes.as_slice()).unwrap_or("no text");
    let value = etag_value(alloc, number)?;
    let text = value.as_str().unwrap_or("no text");
    Ok(Text::from(format!(in alloc; "{number} {bytes} {text}")?))
}

// Why nothing was read.
fn stop_text(alloc: Global, stop: BodyStop) -> Result<Text, OutOfMemory> {
    match stop {
        BodyStop::BadJson => Text::of(alloc, "no JSON"),
        BodyStop::BadField { path } => Ok(Text::from(format!(in alloc; "bad: {}", path.as_str())?)),
        BodyStop::OutOfMemory => Err(OutOfMemory),
    }
}

fn printed(alloc: Global, text: &str) -> Result<Text, OutOfMemory> {
    text_of(alloc, &Value::try_from_str(alloc, text)?)
}

fn printed_in(alloc: Global, words: &str) -> Result<Text, BodyStop> {
    let value = read_body(alloc, words.as_bytes())?;
    let printed = printed(alloc, value.as_str().unwrap_or("no text"));
    let_go(value);
    Ok(printed?)
}

fn number_at(alloc: Global, value: &Value) -> Result<Text, BodyStop> {
    let number: Option<u64> = read_member(alloc, "n", value)?;
    read_absent(alloc, "m", value)?;
    match number {
        Some(number) => Ok(Text::from(format!(in alloc; "{number}")?)),
        None => Ok(Text::of(alloc, "none")?),
    }
}

fn number_in(alloc: Global, body: &[u8]) -> Result<Text, BodyStop> {
    let value = read_body(alloc, body)?;
    let number = number_at(alloc, &value);
    let_go(value);
    number
}

// The bytes that words give by their numbers.
fn bytes(alloc: Global, words: &str) -> Result<List<u8>, OutOfMemory> {
    let mut bytes = List::new(alloc);
    for word in words.split(' ') {
        bytes.push(word.parse::<u8>().unwrap_or(0))?;
    }
    Ok(bytes)
}

fn number_of_bytes(alloc: Global, words: &str) -> Result<Text, BodyStop> {
    let body = bytes(alloc, words)?;
    number_in(alloc, body.as_slice())
}

fn value_text(alloc: Global, value: Value) -> Result<Text, OutOfMemory> {
    let text = value.to_string(alloc);
    let_go(value);
    Ok(Text::from(text?))
}

fn list_text<T: ToJson + Drop>(alloc: Global, list: List<T>) -> Result<Text, OutOfMemory> {
    let shown = list_value(alloc, list.as_slice());
    let_go(list);
    value_text(alloc, shown?)
}

fn list_in<T: FromJson + ToJson + Drop>(alloc: Global, body: &str) -> Result<Text, BodyStop> {
    let value = read_body(alloc, body.as_bytes())?;
    let list: Result<List<T>, BodyStop> = read_required(alloc, "list", &value);
    let_go(value);
    Ok(list_text(alloc, list?)?)
}

fn condition(alloc: Global, words: &str) -> Result<Condition, OutOfMemory> {
    let (expression, rest) = cut(words, " ; ");
    let (title, description) = cut(rest, " ; ");
    Ok(Condition {
        expression: Text::of(alloc, expression)?,
        title: Text::of(alloc, title)?,
        description: Text::of(alloc, description)?,
    })
}

fn conditional(alloc: Global, words: &str) -> Result<Binding, OutOfMemory> {
    let mut members = List::new(alloc);
    members.push(Member::AllUsers)?;
    Ok(Binding {
        role: RoleName::Predefined(Text::of(alloc, "viewer")?),
        members,
        condition: Some(condition(alloc, words)?),
    })
}

fn condition_text(alloc: Global, words: &str) -> Result<Text, OutOfMemory> {
    let binding = conditional(alloc, words)?;
    let shown = binding.to_json(alloc);
    let_go(binding);
    value_text(alloc, shown?)
}

fn path(alloc: Global, words: &str) -> Result<Text, OutOfMemory> {
    let (place, inner) = cut(words, " ");
    let place = place.parse::<usize>().unwrap_or(0);
    let stop = BodyStop::BadField {
        path: Text::of(alloc, inner)?,
    };
    stop_text(alloc, stop.at_item(alloc, place).under(alloc, "list"))
}

// What is read of a body.
fn read(alloc: Global, kind: &str, words: &str) -> Result<Option<Text>, BodyStop> {
    let read = match kind {
        "json-text" => printed_in(alloc, words),
        "number" => number_in(alloc, words.as_bytes()),
        "number-bytes" => number_of_bytes(alloc, words),
        "permissions" => list_in::<PermissionName>(alloc, words),
        "members" => list_in::<Member>(alloc, words),
        "bindings" => list_in::<Binding>(alloc, words),
        _ => return Ok(None),
    };
    Ok(Some(read?))
}

/// What a line comes to, or nothing where the kind is none of these.
pub fn told(alloc: Global, kind: &str, words: &str) -> Result<Option<Text>, OutOfMemory> {
    match kind {
        "etag" => Ok(Some(etag(alloc, words)?)),
        "condition" => Ok(Some(condition_text(alloc, words)?)),
        "path" => Ok(Some(path(alloc, words)?)),
        _ => match read(alloc, kind, words) {
            Ok(read) => Ok(read),
            Err(stop) => Ok(Some(stop_text(alloc, stop)?)),
        },
    }
}
