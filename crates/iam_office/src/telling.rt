// One message, and the writing of its reply.
ghost use Rattle.std.specs.Prelude.{◌≡◌, ◌∷◌, []};
ghost use Rattle.iam_answer.specs.Replies as replies;
ghost use Rattle.iam_office.specs.Handled.{Sent, Turned};
ghost use Rattle.iam_office.specs.Replying.{reply_of};
ghost use Rattle.iam_office.specs.Turns.{Clocked, Rise, keeper_faults_of};

use crate::exchange::send_all;
use crate::handling::{Told, handle};
use crate::office::Office;
use iam_answer::{StoredReply, no_memory_reply};
use iam_outer::{Clock, Line, Step};
use iam_routes::Routes;
use iam_text::let_go;
use iam_wire::Message;
use std::alloc::Global;

/// A step, and whether its reply was written whole.
#[derive(Clone, Copy)]
pub struct Said {
    pub step: Step,
    pub sent: bool,
}

/// Writes bytes, and says whether all were taken.
pub fn send<L: Line>(line: &mut L, bytes: &[u8]) -> bool
    ensures sent { Sent (L.taken line.old) (L.taken line.new) (L.write_faults line.old) (L.write_faults line.new) bytes.now result }
    ensures unread { (L.left line.new ≡ L.left line.old) × (L.read_faults line.new ≡ L.read_faults line.old) }
{
    match send_all(line, bytes) {
        Ok(()) => true,
        Err(_) => false,
    }
}

// Writes the reply that takes no memory, and says whether it was taken whole.
fn send_no_memory<L: Line>(line: &mut L) -> bool
    ensures sent { Sent (L.taken line.old) (L.taken line.new) (L.write_faults line.old) (L.write_faults line.new) replies.no_memory_reply result }
    ensures unread { (L.left line.new ≡ L.left line.old) × (L.read_faults line.new ≡ L.read_faults line.old) }
{
    send(line, no_memory_reply())
}

// Writes that the change of this number is stored, and says whether all was taken.
fn send_stored<L: Line>(line: &mut L, number: u64) -> bool
    ensures sent { Sent (L.taken line.old) (L.taken line.new) (L.write_faults line.old) (L.write_faults line.new) (replies.stored_reply number) result }
    ensures unread { (L.left line.new ≡ L.left line.old) × (L.read_faults line.new ≡ L.read_faults line.old) }
{
    let mut reply = StoredReply::new();
    send(line, reply.bytes(number))
}

// Writes the reply that was made, or the one that takes no memory, and says whether all was taken.
fn send_reply<L: Line>(line: &mut L, told: &Told) -> bool
    ensures sent { Sent (L.taken line.old) (L.taken line.new) (L.write_faults line.old) (L.write_faults line.new) (reply_of told.now.step told.now.reply) result }
    ensures unread { (L.left line.new ≡ L.left line.old) × (L.read_faults line.new ≡ L.read_faults line.old) }
{
    match (&told.reply, told.step) {
        (Some(bytes), _) => send(line, bytes.as_slice()),
        (
            None,
            Step::NoMemory {
                stored: Some(number),
                moment: _,
            },
        ) => send_stored(line, number),
        (None, _) => send_no_memory(line),
    }
}

/// One message, and the writing of its reply.
pub fn turn<O: Office, L: Line, C: Clock>(
    alloc: Global,
    office: &mut O,
    line: &mut L,
    clock: &mut C,
    routes: &Routes,
    message: &Message,
) -> Said
    ensures turned { Turned O.stands O.accepted O.alone office.old office.new (L.taken line.old) (L.taken line.new) (L.write_faults line.old) (L.write_faults line.new) message.now result.step result.sent }
    ensures clock { Clocked (C.given clock.old) (C.given clock.new) (C.clock_faults clock.old) (C.clock_faults clock.new) (result.step ∷ []) }
    ensures faults { Rise (keeper_faults_of result.step) (O.office_faults office.old) (O.office_faults office.new) }
    ensures unread { (L.left line.new ≡ L.left line.old) × (L.read_faults line.new ≡ L.read_faults line.old) }
    ensures same { O.same office.old office.new }
{
    let told = handle(alloc, office, clock, routes, message);
    let step = told.step;
    let sent = send_reply(line, &told);
    let_go(told);
    Said { step, sent }
}
