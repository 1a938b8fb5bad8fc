ghost use Rattle.std.specs.Prelude.{◌≡◌, ◌++◌, IfOk, OnOk, Some, string_bytes};
ghost use Rattle.iam_wire.specs.Reply.{phrase_of, head_of, revision_line, moment_line, bytes_of};

use iam_text::{List, Moment, OutOfMemory, Text};
use std::alloc::{AllocError, Global};
use std::fmt::Write;

/// A reply: its code, the revision and the moment that it shows, and its body, which is JSON.
#[derive(Drop)]
pub struct Reply {
    pub code: u16,
    pub number: Option<u64>,
    pub moment: Option<Moment>,
    pub body: Text,
}

/// The bytes that are written for a reply.
pub fn reply_bytes(alloc: Global, reply: &Reply) -> Result<List<u8>, OutOfMemory>
    ensures { IfOk result (λ bytes. bytes ≡ bytes_of reply.now) }
{
    let mut bytes = List::new(alloc);
    let text = reply_text(alloc, reply)?;
    bytes.push_all(text.as_bytes())?;
    Ok(bytes)
}

fn reply_text(alloc: Global, reply: &Reply) -> Result<String, AllocError>
    ensures { IfOk result (λ text. string_bytes text ≡ bytes_of reply.now) }
{
    let body = reply.body.as_str();
    let mut text = head(alloc, reply.code, body.len())?;
    push_revision(&mut text, reply.number)?;
    push_moment(&mut text, reply.moment)?;
    text.push_str("\r\n")?;
    text.push_str(body)?;
    Ok(text)
}

fn head(alloc: Global, code: u16, size: usize) -> Result<String, AllocError>
    ensures { IfOk result (λ text. string_bytes text ≡ head_of code size) }
{
    let mut text = String::from_str(alloc, "HTTP/1.1 ")?;
    write!(text, "{code}")?;
    text.push_str(" ")?;
    text.push_str(phrase(code))?;
    text.push_str("\r\ncontent-type: application/json\r\ncontent-length: ")?;
    write!(text, "{size}")?;
    text.push_str("\r\n")?;
    Ok(text)
}

fn phrase(code: u16) -> &'static str
    ensures { result.now ≡ phrase_of code }
{
    match code {
        200 => "OK",
        400 => "Bad Request",
        401 => "Unauthorized",
        403 => "Forbidden",
        404 => "Not Found",
        405 => "Method Not Allowed",
        409 => "Conflict",
        411 => "Length Required",
        413 => "Content Too Large",
        429 => "Too Many Requests",
        503 => "Service Unavailable",
        507 => "Insufficient Storage",
        _ => "",
    }
}

fn push_revision(text: &mut String, number: Option<u64>) -> Result<(), AllocError>
    ensures { OnOk result (string_bytes text.new ≡ string_bytes text.old ++ revision_line number) }
{
    match number {
        Some(number) => write!(text, "x-iam-revision: {number}\r\n"),
        None => Ok(()),
    }
}

fn push_moment(text: &mut String, moment: Option<Moment>) -> Result<(), AllocError>
    ensures { OnOk result (string_bytes text.new ≡ string_bytes text.old ++ moment_line moment) }
{
    match moment {
        Some(moment) => push_seconds(text, moment.0),
        None => Ok(()),
    }
}

fn push_seconds(text: &mut String, seconds: i64) -> Result<(), AllocError>
    ensures { OnOk result (string_bytes text.new
        ≡ string_bytes text.old ++ moment_line (Some (record { 0 = seconds }))) }
{
    write!(text, "x-iam-moment: {seconds}\r\n")
}
