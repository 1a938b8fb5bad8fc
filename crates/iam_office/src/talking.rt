// The messages of a line, one after another.
ghost use Rattle.std.specs.Prelude.{◌≡◌, ◌<◌, ◌≤◌, ◌-◌, [], length, slice_set, Err};
ghost use Rattle.iam_outer.specs.Causes.{Rose};
ghost use Rattle.iam_office.specs.Answering.{Answered, IsBehind, Streams, failed_writes};
ghost use Rattle.iam_office.specs.Stops as spec;
ghost use Rattle.iam_office.specs.Stops.{ClockAt, StopsAt, end_of};
ghost use Rattle.iam_office.specs.Talks.{OfInput, Tells, WroteAt};
ghost use Rattle.iam_office.specs.Turns.{Clocked, Rise, all_keeper_faults};

use crate::exchange::next_message;
use crate::office::Office;
use crate::stop::Stop;
use crate::telling::{Said, turn};
use iam_outer::{Clock, Line, List, Step};
use iam_routes::Routes;
use iam_text::let_go;
use iam_wire::{Wire, found_stays, one_stream, stream_as_read, stream_in_turn};
use std::alloc::Global;

/// So many messages are answered at most.
const MOST_MESSAGES: usize = 10_000;

/// What is known of the messages of bytes.
pub fn streams()
    ensures { Streams }
{
    found_stays();
    one_stream();
    stream_as_read();
    stream_in_turn();
}

// Puts a step in the place of the last one.
fn put_last(trace: &mut List<Step>, step: Step)
    requires { 0 < length trace.old }
    ensures { trace.new ≡ slice_set trace.old (length trace.old - 1) step }
{
    let last = trace.len() - 1;
    trace.set(last, step);
}

// Why no message behind this one is answered, if none is.
fn stop_behind(said: Said, last: bool) -> Option<Stop>
    ensures { IsBehind said.step said.sent last result }
{
    if !said.sent {
        return Some(Stop::WriteFault);
    }
    match said.step {
        Step::NoClock => Some(Stop::ClockFault),
        _ => { if last { Some(Stop::AtLast) } else { None } }
    }
}

/// Answers the messages of the line until they end, or something fails.
pub fn answer_all<O: Office, L: Line, C: Clock>(
    alloc: Global,
    office: &mut O,
    line: &mut L,
    clock: &mut C,
    routes: &Routes,
    wire: &mut Wire,
    trace: &mut List<Step>,
) -> Stop
    requires trace { trace.old ≡ [] }
    requires wire { wire.old ≡ [] }
    ensures answered { Answered (Tells O.stands O.accepted O.alone office.old office.new) (WroteAt (end_of result) (L.taken line.old) (L.taken line.new)) (λ messages. OfInput (L.left line.old) (L.left line.new) (λ read unread. StopsAt result read unread messages)) trace.new }
    ensures at { ClockAt result trace.new }
    ensures most { length trace.new ≤ spec.MOST_MESSAGES }
    ensures clock { Clocked (C.given clock.old) (C.given clock.new) (C.clock_faults clock.old) (C.clock_faults clock.new) trace.new }
    ensures faults { Rise (all_keeper_faults trace.new) (O.office_faults office.old) (O.office_faults office.new) }
    ensures reads { result ≡ Stop.ReadFault → Rose (L.read_faults line.old) (L.read_faults line.new) }
    ensures writes { Rise (failed_writes (end_of result)) (L.write_faults line.old) (L.write_faults line.new) }
    ensures same { O.same office.old office.new }
{
    streams();
    'messages: while trace.len() < MOST_MESSAGES {
        let message = match next_message(line, wire) {
            Ok(message) => message,
            Err(stop) => return stop,
        };
        let Ok(()) = trace.push(Step::Plain) else {
            let_go(message);
            return Stop::OutOfMemory;
        };
        let said = turn(alloc, office, line, clock, routes, &message);
        put_last(trace, said.step);
        let last = message.last;
        let_go(message);
        match stop_behind(said, last) {
            Some(stop) => return stop,
            None => {}
        }
    }
    Stop::Enough
}
