// The messages of bytes that come in pieces.
ghost use Rattle.std.specs.Prelude.{◌≡◌, ◌↔◌, ◌≤◌, ◌+◌, ◌++◌, [], drop, vec_len, OnOk, OnErr, IsTrue};
ghost use Rattle.iam_wire.specs.Look.{IsNext};

use crate::fault::FrameFault;
use crate::message::Message;
use crate::step::{Step, step_of};
use iam_text::OutOfMemory;
use std::alloc::Global;
use std::marker::Model;

/// What comes next.
#[derive(Drop)]
pub enum Next {
    Message(Message),
    /// What is left is a proper prefix of a message.
    Need,
    /// It comes again at each later call.
    Fault(FrameFault),
    OutOfMemory,
}

/// The bytes that were fed and not yet taken.
#[derive(Drop)]
pub struct Wire {
    alloc: Global,
    held: Vec<u8>,
    /// How many of the bytes that are held were taken. They are never more than the others: then their room is given back.
    taken: usize,
}

impl Model for Wire {
    ghost use Rattle.std.specs.Prelude.{ℕ, List, ◌≤◌, ◌+◌, drop, vec_len};

    ghost Value = { List ℕ };

    ghost view = { λ wire. drop wire.taken wire.held.items };

    ghost invariant = { λ wire. wire.taken + wire.taken ≤ vec_len wire.held };
}

impl Wire {
    pub fn new(alloc: Global) -> Wire
        ensures { result ≡ [] }
    {
        Wire {
            alloc,
            held: Vec::new(alloc),
            taken: 0,
        }
    }

    /// Adds a piece.
    pub fn feed(&mut self, piece: &[u8]) -> Result<(), OutOfMemory>
        ensures ok { OnOk result (self.new ≡ self.old ++ piece.now) }
        ensures err { OnErr result (self.new ≡ self.old) }
    {
        match self.held.extend_from_slice(piece) {
            Ok(()) => Ok(()),
            Err(_) => Err(OutOfMemory),
        }
    }

    /// Whether all bytes were taken.
    pub fn is_empty(&self) -> bool
        ensures { IsTrue result ↔ (self.now ≡ []) }
    {
        self.taken == self.held.len()
    }

    /// Takes the next message.
    pub fn next_request(&mut self) -> Next
        ensures { IsNext self.old result self.new }
    {
        match step_of(self.alloc, &self.held[self.taken..]) {
            Err(_) => Next::OutOfMemory,
            Ok(Step::Need) => Next::Need,
            Ok(Step::Fault(fault)) => Next::Fault(fault),
            Ok(Step::Took(size, message)) => {
                let taken = self.taken + size;
                self.taken = give_back_room(&mut self.held, taken);
                Next::Message(message)
            }
        }
    }
}

/// Moves the bytes that aren't taken to the front, where those that were taken are more. How many taken ones are still held.
fn give_back_room(held: &mut Vec<u8>, taken: usize) -> usize
    requires { taken ≤ vec_len held.old }
    ensures same { drop result held.new.items ≡ drop taken held.old.items }
    ensures few { result + result ≤ vec_len held.new }
{
    let left = held.len() - taken;
    if taken <= left {
        return taken;
    }
    held.copy_within(taken.., 0);
    held.truncate(left);
    0
}
