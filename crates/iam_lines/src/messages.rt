//! Messages of a stream, however it is cut, and the bytes of a reply. The kinds are
//!
//! - `stream BYTES`: what is read of a stream, its messages and how it ends. It is cut at each byte, and comes byte by byte; where
//!   something else is read of it so, that is written behind it;
//! - `pieces FIRST SIZE BYTES`: what is read of a stream that comes as a first piece of so many bytes, and then in pieces of one size;
//! - `reply CODE REVISION MOMENT BODY`: the bytes of a reply.
//!
//! In bytes `\r`, `\n` and `\t` stand for the returns, line feeds and tabs, `\\` for a backslash, and `~` for a byte that is no text;
//! the repetitions of `words` are written out.
use crate::words::{cut, repeated};
use iam_text::{List, Moment, OutOfMemory, Text, let_go};
use iam_wire::{Field, FrameFault, Message, Next, Reply, Wire, reply_bytes};
use std::alloc::{AllocError, Global};
use std::fmt::Write;
use std::str::from_utf8;

// The byte that one stands for, behind a backslash or not.
fn byte_of(is_marked: bool, byte: u8) -> u8 {
    match (is_marked, byte) {
        (true, b'r') => b'\r',
        (true, b'n') => b'\n',
        (true, b't') => b'\t',
        (false, b'~') => 0xff,
        _ => byte,
    }
}

fn bytes_of(alloc: Global, words: &str) -> Result<List<u8>, OutOfMemory> {
    let text = repeated(alloc, words)?;
    let mut bytes = List::new(alloc);
    let mut is_marked = false;
    for byte in text.as_bytes() {
        if *byte == b'\\' && !is_marked {
            is_marked = true;
        } else {
            bytes.push(byte_of(is_marked, *byte))?;
            is_marked = false;
        }
    }
    Ok(bytes)
}

fn push_field(text: &mut String, name: &str, field: &Field) -> Result<(), AllocError> {
    match field {
        Field::Absent => Ok(()),
        Field::One(value) => {
            let value = value.as_str();
            write!(text, " {name}={value}")
        }
        Field::Bad => write!(text, " {name}?"),
    }
}

fn push_body(text: &mut String, body: &[u8]) -> Result<(), AllocError> {
    if body.is_empty() {
        return Ok(());
    }
    match from_utf8(body) {
        Ok(body) => write!(text, " {body}"),
        Err(_) => text.push_str(" ?"),
    }
}

fn push_message(text: &mut String, message: &Message) -> Result<(), AllocError> {
    let (method, target) = (message.method.as_str(), message.target.as_str());
    write!(text, "{method} {target}")?;
    push_field(text, "caller", &message.caller)?;
    push_field(text, "floor", &message.floor)?;
    push_body(text, message.body.as_slice())?;
    text.push_str(if message.last { " last" } else { "; " })
}

fn push_fault(text: &mut String, fault: FrameFault) -> Result<(), AllocError> {
    match fault {
        FrameFault::BadHead => text.push_str("bad head"),
        FrameFault::TooLarge { declared } => write!(text, "too large {declared}"),
        FrameFault::NeedLength => text.push_str("need length"),
    }
}

// More messages aren't taken at once.
const MOST: usize = 20_000;

// Takes what is whole, and says whether the stream has ended by it.
fn take_whole(wire: &mut Wire, text: &mut String) -> Result<bool, OutOfMemory> {
    for _ in 0..MOST {
        match wire.next_request() {
            Next::Message(message) => {
                let last = message.last;
                let pushed = push_message(text, &message);
                let_go(message);
                pushed?;
                if last {
                    return Ok(true);
                }
            }
            Next::Need => return Ok(false),
            Next::Fault(fault) => {
                push_fault(text, fault)?;
                return Ok(true);
            }
            Next::OutOfMemory => return Err(OutOfMemory),
        }
    }
    Ok(false)
}

// What is read of bytes that come as a first piece and then in pieces of one size.
fn read_of(alloc: Global, bytes: &[u8], first: usize, size: usize) -> Result<String, OutOfMemory> {
    let (front, rest) = bytes.split_at(first.min(bytes.len()));
    let mut wire = Wire::new(alloc);
    let mut text = String::new(alloc);
    wire.feed(front)?;
    let mut ended = take_whole(&mut wire, &mut text)?;
    for piece in rest.chunks(size.max(1)) {
        if !ended {
            wire.feed(piece)?;
            ended = take_whole(&mut wire, &mut text)?;
        }
    }
    if !ended {
        text.push_str(if wire.is_empty() { "end" } else { "cut" })?;
    }
    Ok(text)
}

/// Puts what is read of a stream behind a text.
pub fn push_stream(alloc: Global, words: &str, out: &mut String) -> Result<(), OutOfMemory> {
    let bytes = bytes_of(alloc, words)?;
    let single = read_of(alloc, bytes.as_slice(), 0, 1)?;
    let single = single.as_str();
    out.push_str(single)?;
    for at in 0..bytes.len() {
        let read = read_of(alloc, bytes.as_slice(), at, MOST)?;
        let read = read.as_str();
        if read != single {
            write!(out, ", cut at {at}: {read}")?;
        }
    }
    Ok(())
}

/// Puts what is read of a stream in pieces behind a text. What is no number is 0.
pub fn push_pieces(alloc: Global, words: &str, out: &mut String) -> Result<(), OutOfMemory> {
    let (first, words) = cut(words, " ");
    let (size, words) = cut(words, " ");
    let bytes = bytes_of(alloc, words)?;
    let first = first.parse::<usize>().unwrap_or(0);
    let size = size.parse::<usize>().unwrap_or(0);
    let read = read_of(alloc, bytes.as_slice(), first, size)?;
    out.push_str(read.as_str())?;
    Ok(())
}

fn reply_of(alloc: Global, words: &str) -> Result<Reply, OutOfMemory> {
    let (code, words) = cut(words, " ");
    let (number, words) = cut(words, " ");
    let (moment, body) = cut(words, " ");
    Ok(Reply {
        code: code.parse::<u16>().unwrap_or(0),
        number: number.parse::<u64>().ok(),
        moment: moment.parse::<i64>().ok().map(Moment),
        body: Text::of(alloc, body)?,
    })
}

/// Puts the bytes of a reply behind a text.
pub fn push_reply(alloc: Global, words: &str, out: &mut String) -> Result<(), OutOfMemory> {
    let bytes = reply_bytes(alloc, &reply_of(alloc, words)?)?;
    let text = from_utf8(bytes.as_slice()).unwrap_or("?");
    let text = text.replace(alloc, '\r', "\\r")?;
    let text = text.as_str().replace(alloc, '\n', "\\n")?;
    out.push_str(text.as_str())?;
    Ok(())
}
