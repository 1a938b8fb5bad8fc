// What a head says of its message.
ghost use Rattle.std.specs.Prelude.{◌≡◌, length, map, All};
ghost use Rattle.httparse.specs.Spans.{IsHeaderWithin, IsWithin, header_bytes};
ghost use Rattle.iam_wire.specs.Front as spec;
ghost use Rattle.iam_wire.specs.Look.{IsCovered};

use crate::fault::{FrameFault, Judgement};
use crate::fields::{Named, count_named, value_named};
use crate::options::any_names_close;
use crate::values::{all_named_identity, declared_length};
use httparse::spans::{HeaderSpan, RequestSpans};

/// Fields of a head.
const MAX_FIELDS: usize = 64;

/// Bytes of a body.
const MAX_BODY: u64 = 1048576;

/// The parts of a head.
#[derive(Clone, Copy)]
pub struct Head<'b> {
    pub len: usize,
    pub method: &'b [u8],
    pub target: &'b [u8],
    pub caller: Named<'b>,
    pub floor: Named<'b>,
    pub last: bool,
    pub said: Judgement,
}

/// The head that the spans and the headers cover.
pub fn head_of<'b>(buf: &'b [u8], spans: RequestSpans, headers: &[HeaderSpan]) -> Head<'b>
    requires method { IsWithin (length buf.now) spans.method }
    requires path { IsWithin (length buf.now) spans.path }
    requires headers { All (IsHeaderWithin (length buf.now)) headers.now }
    ensures { IsCovered buf.now spans headers.now result }
{
    Head {
        len: spans.len,
        method: spans.method.of(buf),
        target: spans.path.of(buf),
        caller: value_named(buf, headers, b"x-iam-caller"),
        floor: value_named(buf, headers, b"x-iam-min-revision"),
        last: is_last(buf, spans.version, headers),
        said: judge(buf, spans.version, headers),
    }
}

fn is_last(buf: &[u8], minor: u8, headers: &[HeaderSpan]) -> bool
    requires { All (IsHeaderWithin (length buf.now)) headers.now }
    ensures { result ≡ spec.is_last minor (map (header_bytes buf.now) headers.now) }
{
    minor == 0 || any_names_close(buf, headers, b"connection")
}

fn judge(buf: &[u8], minor: u8, headers: &[HeaderSpan]) -> Judgement
    requires { All (IsHeaderWithin (length buf.now)) headers.now }
    ensures { result ≡ spec.judged_fields minor (map (header_bytes buf.now) headers.now) }
{
    if headers.len() > MAX_FIELDS {
        return Judgement::Faulty(FrameFault::BadHead);
    }
    if minor == 1 && count_named(buf, headers, b"host") != 1 {
        return Judgement::Faulty(FrameFault::BadHead);
    }
    if !all_named_identity(buf, headers, b"content-encoding") {
        return Judgement::Faulty(FrameFault::BadHead);
    }
    let coded = count_named(buf, headers, b"transfer-encoding") != 0;
    match declared_length(buf, headers) {
        Some(size) => sized(coded, size),
        None => Judgement::Faulty(FrameFault::BadHead),
    }
}

fn sized(coded: bool, size: u64) -> Judgement
    ensures { result ≡ spec.sized coded size }
{
    if size > MAX_BODY {
        Judgement::Faulty(FrameFault::TooLarge { declared: size })
    } else if coded {
        Judgement::Faulty(FrameFault::NeedLength)
    } else {
        Judgement::Sized(size)
    }
}
