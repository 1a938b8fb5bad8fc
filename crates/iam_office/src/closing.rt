// What is written behind the replies.
ghost use Rattle.std.specs.Prelude.{◌≡◌, ℕ, IfOk};
ghost use Rattle.iam_answer.specs.Replies as replies;
ghost use Rattle.iam_office.specs.Answering.{EndsWith, Finishes, failed_writes};
ghost use Rattle.iam_office.specs.Stops as spec;
ghost use Rattle.iam_office.specs.Turns.{Rise};

use crate::stop::Stop;
use crate::telling::send;
use iam_answer::{no_memory_reply, plain_reply};
use iam_json::{Details, ErrorReply};
use iam_outer::{Line, List, OutOfMemory, Step, TalkEnd};
use iam_text::let_go;
use iam_wire::FrameFault;
use std::alloc::Global;

/// Bytes of a body.
const MAX_BODY: u64 = 1_048_576;

// Writes a last piece, with which the conversation ends so.
fn end_with<L: Line>(line: &mut L, piece: &[u8], end: TalkEnd) -> TalkEnd
    ensures ends { EndsWith end piece.now (L.taken line.old) (L.taken line.new) (L.write_faults line.old) (L.write_faults line.new) result }
    ensures unread { (L.left line.new ≡ L.left line.old) × (L.read_faults line.new ≡ L.read_faults line.old) }
{
    if send(line, piece) {
        end
    } else {
        TalkEnd::WriteFault
    }
}

// Says that there is no memory.
fn out_of_memory<L: Line>(line: &mut L) -> TalkEnd
    ensures ends { EndsWith TalkEnd.OutOfMemory replies.no_memory_reply (L.taken line.old) (L.taken line.new) (L.write_faults line.old) (L.write_faults line.new) result }
    ensures unread { (L.left line.new ≡ L.left line.old) × (L.read_faults line.new ≡ L.read_faults line.old) }
{
    end_with(line, no_memory_reply(), TalkEnd::OutOfMemory)
}

// The refusal of what is no message.
fn frame_details(fault: FrameFault) -> Details
    ensures { result ≡ spec.frame_details fault }
{
    match fault {
        FrameFault::BadHead => Details::BadHead,
        FrameFault::TooLarge { declared } => Details::BodyTooLarge {
            declared,
            limit: MAX_BODY,
        },
        FrameFault::NeedLength => Details::NeedLength,
    }
}

// The reply to what is no message.
fn frame_reply(alloc: Global, fault: FrameFault) -> Result<List<u8>, OutOfMemory>
    ensures { IfOk result (λ bytes. bytes ≡ replies.plain_reply (spec.frame_details fault)) }
{
    let error = ErrorReply::of(frame_details(fault));
    let reply = plain_reply(alloc, &error);
    let_go(error);
    reply
}

// At a fault of the frame: its reply is made, there is room for its step, and then it is written.
fn end_frame<L: Line>(
    alloc: Global,
    line: &mut L,
    fault: FrameFault,
    trace: &mut List<Step>,
) -> TalkEnd
    ensures finished { Finishes (Stop.Fault fault) result (L.taken line.old) (L.taken line.new) trace.old trace.new }
    ensures writes { (first : ℕ) → Rise 0 first (L.write_faults line.old) → Rise (failed_writes result) first (L.write_faults line.new) }
    ensures unread { (L.left line.new ≡ L.left line.old) × (L.read_faults line.new ≡ L.read_faults line.old) }
{
    let Ok(reply) = frame_reply(alloc, fault) else {
        return out_of_memory(line);
    };
    let Ok(()) = trace.push(Step::Plain) else {
        return out_of_memory(line);
    };
    end_with(line, reply.as_slice(), TalkEnd::BadFrame)
}

// How a conversation ends, behind whose replies nothing is written.
fn end_of(stop: Stop) -> TalkEnd
    ensures { result ≡ spec.end_of stop }
{
    match stop {
        Stop::AtEnd | Stop::AtLast => TalkEnd::Done,
        Stop::Cut => TalkEnd::Cut,
        Stop::Fault(_) => TalkEnd::BadFrame,
        Stop::Enough => TalkEnd::Enough,
        Stop::ReadFault => TalkEnd::ReadFault,
        Stop::WriteFault => TalkEnd::WriteFault,
        Stop::ClockFault => TalkEnd::ClockFault,
        Stop::OutOfMemory => TalkEnd::OutOfMemory,
    }
}

/// Writes what follows the replies: the reply to a fault of the frame, or that there is no memory.
pub fn finish<L: Line>(alloc: Global, line: &mut L, stop: Stop, trace: &mut List<Step>) -> TalkEnd
    ensures finished { Finishes stop result (L.taken line.old) (L.taken line.new) trace.old trace.new }
    ensures writes { (first : ℕ) → Rise (failed_writes (spec.end_of stop)) first (L.write_faults line.old) → Rise (failed_writes result) first (L.write_faults line.new) }
    ensures unread { (L.left line.new ≡ L.left line.old) × (L.read_faults line.new ≡ L.read_faults line.old) }
{
    match stop {
        Stop::Fault(fault) => end_frame(alloc, line, fault, trace),
        Stop::OutOfMemory => out_of_memory(line),
        Stop::AtEnd
        | Stop::AtLast
        | Stop::Cut
        | Stop::Enough
        | Stop::ReadFault
        | Stop::WriteFault
        | Stop::ClockFault => end_of(stop),
    }
}
