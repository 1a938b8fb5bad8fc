// What stands at the front of bytes.
ghost use Rattle.std.specs.Prelude.{◌≡◌, IfOk, MatchOption, length, take};
ghost use Rattle.httparse.specs.Spans.{RequestExceeds};
ghost use Rattle.iam_wire.specs.Front.{max_head};
ghost use Rattle.iam_wire.specs.Look.{IsFront, IsLook, IsWhole};

use crate::fault::{FrameFault, Judgement};
use crate::head::{Head, head_of};
use crate::target::stops_in_target;
use httparse::spans::{EMPTY_HEADER_SPAN, HeaderSpan, parse_request};
use httparse::{Error, Status};
use iam_text::OutOfMemory;
use std::alloc::Global;

/// Bytes of a head, its empty line included.
const MAX_HEAD: usize = 16384;

/// Fields of a message's head.
const MAX_FIELDS: usize = 64;

/// More fields have no room in a head.
const MOST_FIELDS: usize = 5461;

/// What stands there: a head, with the length of its body, which is there, too; a prefix of a message; a fault.
#[derive(Clone, Copy)]
pub enum Front<'b> {
    Found(Head<'b>, u64),
    Part,
    Fault(FrameFault),
}

/// What the head's reader tells: a head; none yet; none ever.
#[derive(Clone, Copy)]
enum Look<'b> {
    Whole(Head<'b>),
    Open,
    Closed,
}

/// What stands at the front of the bytes.
pub fn front_of<'b>(alloc: Global, bytes: &'b [u8]) -> Result<Front<'b>, OutOfMemory>
    ensures { IfOk result (IsFront bytes.now) }
{
    let window = &bytes[..bytes.len().min(MAX_HEAD)];
    let mut headers = [EMPTY_HEADER_SPAN; MAX_FIELDS];
    if let Some(seen) = look_at(window, &mut headers) {
        return Ok(settled(bytes, seen));
    }
    let mut many = vec![in alloc; EMPTY_HEADER_SPAN; MOST_FIELDS]?;
    match look_at(window, &mut many) {
        Some(seen) => Ok(settled(bytes, seen)),
        None => unreachable!("so many fields have no room in a head"),
    }
}

fn settled<'b>(bytes: &'b [u8], seen: Look<'b>) -> Front<'b>
    requires { IsLook (take max_head bytes.now) seen }
    ensures { IsFront bytes.now result }
{
    match seen {
        Look::Whole(head) => whole(bytes, head),
        Look::Open => {
            if bytes.len() < MAX_HEAD {
                Front::Part
            } else {
                Front::Fault(FrameFault::BadHead)
            }
        }
        Look::Closed => {
            if bytes.len() < MAX_HEAD && stops_in_target(bytes) {
                Front::Part
            } else {
                Front::Fault(FrameFault::BadHead)
            }
        }
    }
}

fn whole<'b>(bytes: &'b [u8], head: Head<'b>) -> Front<'b>
    requires { IsWhole (take max_head bytes.now) head }
    ensures { IsFront bytes.now result }
{
    match head.said {
        Judgement::Sized(size) => {
            if (bytes.len() - head.len) as u64 >= size {
                Front::Found(head, size)
            } else {
                Front::Part
            }
        }
        Judgement::Faulty(fault) => Front::Fault(fault),
    }
}

fn look_at<'b>(buf: &'b [u8], headers: &mut [HeaderSpan]) -> Option<Look<'b>>
    ensures { MatchOption result (RequestExceeds (length headers.old) buf.now) (IsLook buf.now) }
{
    match parse_request(buf, headers) {
        Ok(Status::Complete(spans)) => {
            Some(Look::Whole(head_of(buf, spans, &headers[..spans.headers])))
        }
        Ok(Status::Partial) => Some(Look::Open),
        Err(Error::TooManyHeaders) => None,
        Err(_) => Some(Look::Closed),
    }
}
