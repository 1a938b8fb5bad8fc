ghost use Rattle.std.specs.Prelude.{◌≡◌, ◌<◌, ◌-◌, ◌↔◌, ◌⊎◌, [], ◌++◌, min, length, take, drop, Some, IsErr, OnErr, IfOk, refl};
ghost use Rattle.std.specs.Io.{ReadsAtMost};
ghost use Rattle.std.specs.Io.KnownBytes.{ReadConsumes, WriteAppends};
ghost use Rattle.iam_outer.specs.Causes.{HasCause, TakesSome};
ghost use Rattle.iam_outer.specs.Memory.{FailsNext, fresh, passed, failed};

use super::calls::Calls;
use crate::{Failed, Line, List, OutOfMemory, Sink, Source};
use std::alloc::Global;
use std::marker::Model;

/// The bytes of a list, in pieces as large as the reader asks for.
#[derive(Drop)]
pub struct MemorySource {
    bytes: List<u8>,
    at: usize,
    calls: Calls,
}

impl Model for MemorySource {
    ghost use Rattle.std.specs.Prelude.{◌≤◌, length, drop};
    ghost use Rattle.iam_outer.specs.Memory.{Reading};

    ghost Value = { Reading };

    ghost view = { λ s. record { left = drop s.at s.bytes; failing = s.calls } };

    ghost invariant = { λ s. s.at ≤ length s.bytes };
}

impl MemorySource {
    pub fn new(bytes: List<u8>, failing: List<u64>) -> MemorySource
        ensures { result ≡ record { left = bytes; failing = fresh failing } }
    {
        MemorySource {
            bytes,
            at: 0,
            calls: Calls::new(failing),
        }
    }
}

// Copies as much as there is and fits.
fn copy_some(from: &[u8], into: &mut [u8]) -> usize
    ensures count { result ≡ min (length from.now) (length into.old) }
    ensures copied { take result into.new ≡ take result from.now }
{
    let count = from.len().min(into.len());
    into[..count].copy_from_slice(&from[..count]);
    count
}

impl Source for MemorySource {
    ghost left = { λ s. Some s.left };

    ghost read_faults = { λ s. s.failing.faults };

    fn read(&mut self, into: &mut [u8]) -> Result<usize, Failed>
        requires { 0 < length into.old }
        ensures bound { ReadsAtMost result into.new }
        ensures bytes { ReadConsumes (Some self.old.left) (Some self.new.left) result into.new }
        ensures cause { HasCause self.old.failing.faults self.new.failing.faults result }
        ensures fails { IsErr result ↔ FailsNext self.old.failing }
        ensures at_err { OnErr result (self.new ≡ record self.old { failing = failed self.old.failing }) }
        ensures at_ok { IfOk result (λ n. (n ≡ min (length into.new) (length self.old.left))
            × (self.new ≡ record { left = drop n self.old.left; failing = passed self.old.failing })) }
    {
        if self.calls.fails(false) {
            return Err(Failed);
        }
        let (_, rest) = self.bytes.as_slice().split_at(self.at);
        let count = copy_some(rest, into);
        self.at += count;
        Ok(count)
    }
}

/// Takes bytes up to its room.
#[derive(Drop)]
pub struct MemorySink {
    taken: Vec<u8>,
    room: usize,
    calls: Calls,
}

impl Model for MemorySink {
    ghost use Rattle.std.specs.Prelude.{◌≤◌, vec_len, vec_capacity};
    ghost use Rattle.iam_outer.specs.Memory.{Writing};

    ghost Value = { Writing };

    ghost view = { λ s. record { room = s.room; taken = s.taken.items; failing = s.calls } };

    ghost invariant = { λ s. (vec_len s.taken ≤ s.room) × (s.room ≤ vec_capacity s.taken) };
}

impl MemorySink {
    pub fn new(alloc: Global, room: usize, failing: List<u64>) -> Result<MemorySink, OutOfMemory>
        ensures { IfOk result (λ s. s ≡ record { room = room; taken = []; failing = fresh failing }) }
    {
        match Vec::with_capacity(alloc, room) {
            Ok(taken) => Ok(MemorySink {
                taken,
                room,
                calls: Calls::new(failing),
            }),
            Err(_) => Err(OutOfMemory),
        }
    }

    pub fn taken(&self) -> &[u8]
        ensures { result.now ≡ self.now.taken }
    {
        self.taken.as_slice()
    }
}

impl Sink for MemorySink {
    ghost taken = { λ s. Some s.taken };

    ghost write_faults = { λ s. s.failing.faults };

    fn write(&mut self, piece: &[u8]) -> Result<usize, Failed>
        requires { 0 < length piece.now }
        ensures some { TakesSome result piece.now }
        ensures bytes { WriteAppends (Some self.old.taken) (Some self.new.taken) result piece.now }
        ensures cause { HasCause self.old.failing.faults self.new.failing.faults result }
        ensures fails { IsErr result ↔ (FailsNext self.old.failing ⊎ (length self.old.taken ≡ self.old.room)) }
        ensures at_err { OnErr result (self.new ≡ record self.old { failing = failed self.old.failing }) }
        ensures at_ok { IfOk result (λ n. (n ≡ min (length piece.now) (self.old.room - length self.old.taken))
            × (self.new ≡ record self.old { taken = self.old.taken ++ take n piece.now; failing = passed self.old.failing })) }
    {
        let room = self.room - self.taken.len();
        if self.calls.fails(room == 0) {
            return Err(Failed);
        }
        let count = piece.len().min(room);
        match self.taken.extend_from_slice(&piece[..count]) {
            Ok(()) => Ok(count),
            Err(_) => unreachable!(),
        }
    }
}

/// A line made of a source and a sink.
#[derive(Drop)]
pub struct Pair<S: Source, K: Sink> {
    pub source: S,
    pub sink: K,
}

impl<S: Source, K: Sink> Pair<S, K> {
    pub fn new(source: S, sink: K) -> Pair<S, K>
        ensures { result ≡ record { source = source; sink = sink } }
    {
        Pair { source, sink }
    }
}

impl<S: Source, K: Sink> Source for Pair<S, K> {
    ghost left = { λ p. S.left p.source };

    ghost read_faults = { λ p. S.read_faults p.source };

    ghost sink_side = { λ p. (K.taken p.sink, K.write_faults p.sink) };

    fn read(&mut self, into: &mut [u8]) -> Result<usize, Failed> {
        self.source.read(into)
    }
}

impl<S: Source, K: Sink> Sink for Pair<S, K> {
    ghost taken = { λ p. K.taken p.sink };

    ghost write_faults = { λ p. K.write_faults p.sink };

    ghost source_side = { λ p. (S.left p.source, S.read_faults p.source) };

    fn write(&mut self, piece: &[u8]) -> Result<usize, Failed> {
        self.sink.write(piece)
    }
}

impl<S: Source, K: Sink> Line for Pair<S, K> {
    ghost sink_is_apart = { λ p. refl };

    ghost source_is_apart = { λ p. refl };
}
