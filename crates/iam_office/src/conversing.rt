// A whole conversation.
ghost use Rattle.std.specs.Prelude.{◌≡◌, []};
ghost use Rattle.iam_office.specs.Talks.{Caused, OfInput, Talked, Tells};
ghost use Rattle.iam_office.specs.Turns.{Clocked, Rise, all_keeper_faults};

use crate::closing::finish;
use crate::office::Office;
use crate::stop::Stop;
use crate::talking::{answer_all, streams};
use iam_outer::{Clock, Line, List, Step, Talk, TalkEnd};
use iam_routes::Routes;
use iam_wire::Wire;
use std::alloc::Global;

// The whole conversation, and its steps.
fn talk<O: Office, L: Line, C: Clock>(
    alloc: Global,
    office: &mut O,
    line: &mut L,
    clock: &mut C,
    trace: &mut List<Step>,
) -> TalkEnd
    requires { trace.old ≡ [] }
    ensures talked { OfInput (L.left line.old) (L.left line.new) (λ read unread. Talked (Tells O.stands O.accepted O.alone office.old office.new) (L.taken line.old) (L.taken line.new) read unread result trace.new) }
    ensures clock { Clocked (C.given clock.old) (C.given clock.new) (C.clock_faults clock.old) (C.clock_faults clock.new) trace.new }
    ensures faults { Rise (all_keeper_faults trace.new) (O.office_faults office.old) (O.office_faults office.new) }
    ensures causes { Caused result (L.read_faults line.old) (L.read_faults line.new) (L.write_faults line.old) (L.write_faults line.new) (C.clock_faults clock.old) (C.clock_faults clock.new) }
    ensures same { O.same office.old office.new }
{
    streams();
    let Ok(routes) = Routes::new(alloc) else {
        return finish(alloc, line, Stop::OutOfMemory, trace);
    };
    let mut wire = Wire::new(alloc);
    let stop = answer_all(alloc, office, line, clock, &routes, &mut wire, trace);
    finish(alloc, line, stop, trace)
}

/// Answers the messages of the line one after another over the office, each as soon as it is whole, and writes their replies.
///
/// At most 10,000 messages are answered. What follows a message that ends the conversation isn't looked at.
pub fn converse<O: Office, L: Line, C: Clock>(
    alloc: Global,
    office: &mut O,
    line: &mut L,
    clock: &mut C,
) -> Talk
    ensures talked { OfInput (L.left line.old) (L.left line.new) (λ read unread. Talked (Tells O.stands O.accepted O.alone office.old office.new) (L.taken line.old) (L.taken line.new) read unread result.end result.trace) }
    ensures clock { Clocked (C.given clock.old) (C.given clock.new) (C.clock_faults clock.old) (C.clock_faults clock.new) result.trace }
    ensures faults { Rise (all_keeper_faults result.trace) (O.office_faults office.old) (O.office_faults office.new) }
    ensures causes { Caused result.end (L.read_faults line.old) (L.read_faults line.new) (L.write_faults line.old) (L.write_faults line.new) (C.clock_faults clock.old) (C.clock_faults clock.new) }
    ensures same { O.same office.old office.new }
{
    let mut trace = List::new(alloc);
    let end = talk(alloc, office, line, clock, &mut trace);
    Talk { end, trace }
}
