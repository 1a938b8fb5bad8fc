// An input that comes in pieces.
ghost use Rattle.std.specs.Prelude.{◌≤◌, length, None, refl};

use iam_outer::{Failed, Line, List, OutOfMemory, Sink, Source};
use std::alloc::Global;

/// A line that gives its input in pieces of one size, and keeps what it takes. Where it waits, a read comes too early if nothing was
/// written since the one before; it fails then, and so does each read behind it.
#[derive(Drop)]
pub struct Pieces {
    input: List<u8>,
    at: usize,
    size: usize,
    waits: bool,
    answered: bool,
    is_early: bool,
    pub written: List<u8>,
    failed_reads: u64,
    failed_writes: u64,
}

impl Pieces {
    pub fn new(
        alloc: Global,
        input: &[u8],
        size: usize,
        waits: bool,
    ) -> Result<Pieces, OutOfMemory> {
        let mut bytes = List::new(alloc);
        bytes.push_all(input)?;
        Ok(Pieces {
            input: bytes,
            at: 0,
            size,
            waits,
            answered: false,
            is_early: false,
            written: List::new(alloc),
            failed_reads: 0,
            failed_writes: 0,
        })
    }
}

// The first bytes, as many as there is room for, and no more than a piece has.
fn copy_piece(rest: &[u8], size: usize, into: &mut [u8]) -> usize
    ensures { result ≤ length into.new }
{
    let count = rest.len().min(size).min(into.len());
    into[..count].copy_from_slice(&rest[..count]);
    count
}

impl Source for Pieces {
    ghost left = { λ _. None };

    ghost read_faults = { λ p. p.failed_reads };

    ghost sink_side = { λ p. (None, p.failed_writes) };

    fn read(&mut self, into: &mut [u8]) -> Result<usize, Failed> {
        self.is_early = self.is_early || (self.waits && self.at > 0 && !self.answered);
        if self.is_early {
            self.failed_reads = self.failed_reads.saturating_add(1);
            return Err(Failed);
        }
        self.answered = false;
        let from = self.at.min(self.input.len());
        let count = copy_piece(&self.input.as_slice()[from..], self.size, into);
        self.at = self.at.saturating_add(count);
        Ok(count)
    }
}

impl Sink for Pieces {
    ghost taken = { λ _. None };

    ghost write_faults = { λ p. p.failed_writes };

    ghost source_side = { λ p. (None, p.failed_reads) };

    fn write(&mut self, piece: &[u8]) -> Result<usize, Failed> {
        match self.written.push_all(piece) {
            Ok(()) => {
                self.answered = true;
                Ok(piece.len())
            }
            Err(_) => {
                self.failed_writes = self.failed_writes.saturating_add(1);
                Err(Failed)
            }
        }
    }
}

impl Line for Pieces {
    ghost sink_is_apart = { λ p. refl };

    ghost source_is_apart = { λ p. refl };
}
