// The next message of a line, and writing to a line whole.
ghost use Rattle.std.specs.Prelude.{◌≡◌, ◌≤◌, [], Err, OnErr, OnOk};
ghost use Rattle.std.specs.Io.KnownBytes.{Appends};
ghost use Rattle.iam_outer.specs.Causes.{HasCause, Rose};
ghost use Rattle.iam_wire.specs.Front.{IsPrefix};
ghost use Rattle.iam_office.specs.Answering.{IsFed, IsLooked, IsNextOf};
ghost use Rattle.iam_office.specs.Handled.{AppendsPrefix};
ghost use Rattle.iam_office.specs.declared.stop.Stop.TheVariants.{AtEnd, Cut};

use crate::stop::Stop;
use iam_outer::{Failed, Line, receive, send};
use iam_wire::{Message, Next, Wire, prefixes_are_short};

/// Why no piece was read.
#[derive(Clone, Copy)]
pub enum ReadStop {
    Fault,
    OutOfMemory,
}

/// What one look at a line and what is held of it finds.
#[derive(Drop)]
pub enum Looked {
    Took(Message),
    Stopped(Stop),
    /// A piece was read, and may be looked at.
    Read,
}

const PIECE: usize = 4096;

// Reads a piece and feeds it to what is held. It says how many bytes came.
fn read_piece<L: Line>(line: &mut L, wire: &mut Wire) -> Result<usize, ReadStop>
    ensures fed { IsFed result (L.left line.old) (L.left line.new) wire.old wire.new }
    ensures later { L.read_faults line.old ≤ L.read_faults line.new }
    ensures cause { result ≡ Err ReadStop.Fault → Rose (L.read_faults line.old) (L.read_faults line.new) }
    ensures unwritten { (L.taken line.new ≡ L.taken line.old) × (L.write_faults line.new ≡ L.write_faults line.old) }
{
    let mut buffer = [0; PIECE];
    let into = &mut buffer[..];
    let count = match receive(line, into) {
        Ok(count) => count,
        Err(_) => return Err(ReadStop::Fault),
    };
    match wire.feed(&buffer[..count]) {
        Ok(()) => Ok(count),
        Err(_) => Err(ReadStop::OutOfMemory),
    }
}

// What the end of the input is, by what is held.
fn end_of_input(wire: &Wire) -> Stop
    ensures end { wire.now ≡ [] → result ≡ AtEnd }
    ensures rest { (wire.now ≡ [] → ⊥) → result ≡ Cut }
{
    if wire.is_empty() {
        Stop::AtEnd
    } else {
        Stop::Cut
    }
}

// Reads on, where what is held is a proper prefix of a message.
fn read_on<L: Line>(line: &mut L, wire: &mut Wire) -> Looked
    requires { IsPrefix wire.old }
    ensures looked { IsLooked result (L.left line.old) (L.left line.new) wire.old wire.new }
    ensures later { L.read_faults line.old ≤ L.read_faults line.new }
    ensures cause { result ≡ Looked.Stopped Stop.ReadFault → Rose (L.read_faults line.old) (L.read_faults line.new) }
    ensures unwritten { (L.taken line.new ≡ L.taken line.old) × (L.write_faults line.new ≡ L.write_faults line.old) }
{
    prefixes_are_short();
    match read_piece(line, wire) {
        Ok(0) => Looked::Stopped(end_of_input(wire)),
        Ok(_) => Looked::Read,
        Err(ReadStop::Fault) => Looked::Stopped(Stop::ReadFault),
        Err(ReadStop::OutOfMemory) => Looked::Stopped(Stop::OutOfMemory),
    }
}

// Looks at what is held, and reads a piece only where that is a proper prefix of a message.
fn look<L: Line>(line: &mut L, wire: &mut Wire) -> Looked
    ensures looked { IsLooked result (L.left line.old) (L.left line.new) wire.old wire.new }
    ensures later { L.read_faults line.old ≤ L.read_faults line.new }
    ensures cause { result ≡ Looked.Stopped Stop.ReadFault → Rose (L.read_faults line.old) (L.read_faults line.new) }
    ensures unwritten { (L.taken line.new ≡ L.taken line.old) × (L.write_faults line.new ≡ L.write_faults line.old) }
{
    match wire.next_request() {
        Next::Message(message) => Looked::Took(message),
        Next::Need => read_on(line, wire),
        Next::Fault(fault) => Looked::Stopped(Stop::Fault(fault)),
        Next::OutOfMemory => Looked::Stopped(Stop::OutOfMemory),
    }
}

/// The next message of the line, behind what is held of it, or why there is none. No more is read than up to the piece in which it
/// ends.
pub fn next_message<L: Line>(line: &mut L, wire: &mut Wire) -> Result<Message, Stop>
    ensures next { IsNextOf result (L.left line.old) (L.left line.new) wire.old wire.new }
    ensures later { L.read_faults line.old ≤ L.read_faults line.new }
    ensures cause { result ≡ Err Stop.ReadFault → Rose (L.read_faults line.old) (L.read_faults line.new) }
    ensures unwritten { (L.taken line.new ≡ L.taken line.old) × (L.write_faults line.new ≡ L.write_faults line.old) }
{
    'pieces: loop {
        match look(line, wire) {
            Looked::Took(message) => return Ok(message),
            Looked::Stopped(stop) => return Err(stop),
            Looked::Read => {}
        }
    }
}

/// Writes all the bytes, or the first of them and then fails.
pub fn send_all<L: Line>(line: &mut L, bytes: &[u8]) -> Result<(), Failed>
    ensures ok { OnOk result (Appends (L.taken line.old) (L.taken line.new) bytes.now) }
    ensures err { OnErr result (AppendsPrefix (L.taken line.old) (L.taken line.new) bytes.now) }
    ensures cause { HasCause (L.write_faults line.old) (L.write_faults line.new) result }
    ensures left { L.left line.new ≡ L.left line.old }
    ensures read_faults { L.read_faults line.new ≡ L.read_faults line.old }
{
    let mut at = 0;
    while at < bytes.len() {
        at += send(line, &bytes[at..])?;
    }
    Ok(())
}
