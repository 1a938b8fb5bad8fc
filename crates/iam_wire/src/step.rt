// The message at the front of bytes.
ghost use Rattle.std.specs.Prelude.{◌≡◌, IfOk, IsUtf8, List, ℕ};
ghost use Rattle.iam_wire.specs.Front as spec;
ghost use Rattle.iam_wire.specs.Look.{HasWhole, IsMade, IsNamed, IsStep};

use crate::fault::FrameFault;
use crate::fields::Named;
use crate::front::{Front, front_of};
use crate::head::Head;
use crate::message::{Field, Message};
use iam_text::{List, OutOfMemory, Text};
use std::alloc::Global;
use std::str::from_utf8;

/// What is taken from the front: a message, with how many bytes it takes, or nothing.
#[derive(Drop)]
pub enum Step {
    Took(usize, Message),
    Need,
    Fault(FrameFault),
}

/// What is taken from the front of the bytes.
pub fn step_of(alloc: Global, bytes: &[u8]) -> Result<Step, OutOfMemory>
    ensures { IfOk result (IsStep bytes.now) }
{
    match front_of(alloc, bytes)? {
        Front::Found(head, size) => took(alloc, bytes, head, size),
        Front::Part => Ok(Step::Need),
        Front::Fault(fault) => Ok(Step::Fault(fault)),
    }
}

fn took(alloc: Global, bytes: &[u8], head: Head, size: u64) -> Result<Step, OutOfMemory>
    requires { HasWhole bytes.now head size }
    ensures { IfOk result (IsStep bytes.now) }
{
    let end = head.len + size as usize;
    let message = message_of(alloc, head, &bytes[head.len..end])?;
    Ok(Step::Took(end, message))
}

fn message_of(alloc: Global, head: Head, body: &[u8]) -> Result<Message, OutOfMemory>
    requires method { IsUtf8 head.method.now }
    requires target { IsUtf8 head.target.now }
    ensures { IfOk result (IsMade head.entry body.now) }
{
    let mut copy = List::new(alloc);
    copy.push_all(body)?;
    Ok(Message {
        method: text_of(alloc, head.method)?,
        target: text_of(alloc, head.target)?,
        caller: field_of(alloc, head.caller)?,
        floor: field_of(alloc, head.floor)?,
        last: head.last,
        body: copy,
    })
}

fn field_of(alloc: Global, field: Named) -> Result<Field, OutOfMemory>
    ensures { IfOk result (λ read. (values : List (List ℕ)) → IsNamed values field.entry → read ≡ spec.field_of values) }
{
    match field {
        Named::Missing => Ok(Field::Absent),
        Named::Once(value) => match from_utf8(value) {
            Ok(text) => Ok(Field::One(Text::of(alloc, text)?)),
            Err(_) => Ok(Field::Bad),
        },
        Named::Repeated => Ok(Field::Bad),
    }
}

fn text_of(alloc: Global, bytes: &[u8]) -> Result<Text, OutOfMemory>
    requires { IsUtf8 bytes.now }
    ensures { IfOk result (λ text. text ≡ bytes.now) }
{
    match from_utf8(bytes) {
        Ok(text) => Text::of(alloc, text),
        Err(_) => unreachable!(),
    }
}
