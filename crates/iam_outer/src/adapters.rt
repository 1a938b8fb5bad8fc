// Standard input, standard output and the system's clock. They count their faults and tell no content.
ghost use Rattle.std.specs.Prelude.{None, IfSome};
ghost use Rattle.iam_text.specs.Moments.{IsMoment};

use crate::{Clock, Failed, Moment, Sink, Source};
use std::io::{Read, Write};
use std::rt;
use std::time::SystemTime;

/// A reader that counts its faults, as standard input.
#[derive(Drop)]
pub struct StdinSource<R: Read> {
    reader: R,
    faults: u64,
}

impl<R: Read> StdinSource<R> {
    pub fn new(reader: R) -> StdinSource<R> {
        StdinSource { reader, faults: 0 }
    }
}

impl<R: Read> Source for StdinSource<R> {
    ghost left = { λ s. R.remaining s.reader };

    ghost read_faults = { λ s. s.faults };

    fn read(&mut self, into: &mut [u8]) -> Result<usize, Failed> {
        match self.reader.read(into) {
            Ok(count) => Ok(count),
            Err(_) => {
                self.faults = self.faults.saturating_add(1);
                Err(Failed)
            }
        }
    }
}

/// A writer that counts its faults, as standard output. To take nothing is a fault.
#[derive(Drop)]
pub struct StdoutSink<W: Write> {
    writer: W,
    faults: u64,
}

impl<W: Write> StdoutSink<W> {
    pub fn new(writer: W) -> StdoutSink<W> {
        StdoutSink { writer, faults: 0 }
    }
}

impl<W: Write> Sink for StdoutSink<W> {
    ghost taken = { λ s. W.contents s.writer };

    ghost write_faults = { λ s. s.faults };

    fn write(&mut self, piece: &[u8]) -> Result<usize, Failed> {
        match self.writer.write(piece) {
            Ok(count) if count > 0 => Ok(count),
            _ => {
                self.faults = self.faults.saturating_add(1);
                Err(Failed)
            }
        }
    }
}

/// The system's clock. A reading past the last moment is a fault.
#[derive(Drop)]
pub struct SystemClock<R: rt::Clock> {
    clock: R,
    faults: u64,
}

const LAST_SECOND: u64 = 253_402_300_799;

// The seconds since 1970, where they are a moment.
fn seconds(clock: &impl rt::Clock) -> Option<i64>
    ensures { IfSome result (λ s. IsMoment (record { 0 = s })) }
{
    let since = SystemTime::now(clock)
        .ok()?
        .duration_since(SystemTime::UNIX_EPOCH)
        .ok()?;
    let seconds = since.as_secs();
    if seconds > LAST_SECOND {
        None
    } else {
        Some(seconds as i64)
    }
}

impl<R: rt::Clock> SystemClock<R> {
    pub fn new(clock: R) -> SystemClock<R> {
        SystemClock { clock, faults: 0 }
    }
}

impl<R: rt::Clock> Clock for SystemClock<R> {
    ghost given = { λ _. None };

    ghost clock_faults = { λ c. c.faults };

    fn now(&mut self) -> Result<Moment, Failed> {
        match seconds(&self.clock) {
            Some(seconds) => Ok(Moment(seconds)),
            None => {
                self.faults = self.faults.saturating_add(1);
                Err(Failed)
            }
        }
    }
}
