// One message over an office.
ghost use Rattle.std.specs.Prelude.{◌≡◌, ◌∷◌, [], ℕ, Some, None};
ghost use Rattle.std.specs.declared.option.Option.{Option as Maybe};
ghost use Rattle.std.specs.Bool.{MatchBool};
ghost use Rattle.iam_answer.specs.Answer.{accepts};
ghost use Rattle.iam_json.specs.Refusals.{line_of};
ghost use Rattle.iam_model.specs.Commands.{IsEntry, IsCommand};
ghost use Rattle.iam_names.specs.Caller.{IsCaller};
ghost use Rattle.iam_routes.specs.Asked.{IsAsked};
ghost use Rattle.iam_routes.specs.declared.given.Asked.TheVariants as asking;
ghost use Rattle.iam_wire.specs.declared.message.Message as wire;
ghost use Rattle.iam_office.specs.Handled.{Handled, HandledAbove};
ghost use Rattle.iam_office.specs.Replying.{IsShown, IsStopped, IsTimed, IsUnreached, SaysNoKeeper, SaysNoMemory, SaysPlainly, SaysStored, reply_of};
ghost use Rattle.iam_office.specs.Turns.{Clocked, Rise, keeper_faults_of};

use crate::floors::{Unreached, reach};
use crate::office::{Numbered, Office, WriteStop};
use iam_answer::{keeper_reply, plain_reply, served_reply};
use iam_json::{Call, Details, ErrorReply};
use iam_names::Caller;
use iam_outer::{Clock, Step};
use iam_routes::{Asked, Routes, asked};
use iam_text::{List, Moment, let_go};
use iam_types::{Answer, Ask, Command, Entry, Refusal};
use iam_wire::Message;
use std::alloc::Global;

/// What a message came to: its step, and the bytes of its reply, or none where the reply is the one that takes no
/// memory.
#[derive(Drop)]
pub struct Told {
    pub step: Step,
    pub reply: Option<List<u8>>,
}

// Memory was refused, and nothing was stored.
fn no_memory(moment: Option<Moment>) -> Told
    ensures { SaysNoMemory moment result.step (reply_of result.step result.reply) }
{
    Told {
        step: Step::NoMemory {
            stored: None,
            moment,
        },
        reply: None,
    }
}

// A refusal that has no moment, at this step.
fn refuse(alloc: Global, step: Step, error: &ErrorReply) -> Told
    requires { error.now.number ≡ (line_of error.now.details).number }
    ensures { SaysPlainly step error.now.details result.step (reply_of result.step result.reply) }
{
    match plain_reply(alloc, error) {
        Ok(bytes) => Told {
            step,
            reply: Some(bytes),
        },
        Err(_) => no_memory(None),
    }
}

// The clock failed.
fn no_clock(alloc: Global) -> Told
    ensures { SaysPlainly Step.NoClock Details.ClockFault result.step (reply_of result.step result.reply) }
{
    let error = ErrorReply::of(Details::ClockFault);
    let told = refuse(alloc, Step::NoClock, &error);
    let_go(error);
    told
}

// Memory was refused to the reply of the write of this number, which is stored.
fn stored(number: u64, moment: Moment) -> Told
    ensures { SaysStored number moment result.step (reply_of result.step result.reply) }
{
    Told {
        step: Step::NoMemory {
            stored: Some(number),
            moment: Some(moment),
        },
        reply: None,
    }
}

// The keeper failed at this moment.
fn no_keeper(alloc: Global, moment: Moment) -> Told
    ensures { SaysNoKeeper moment result.step (reply_of result.step result.reply) }
{
    match keeper_reply(alloc, moment) {
        Ok(bytes) => Told {
            step: Step::NoKeeper { moment },
            reply: Some(bytes),
        },
        Err(_) => no_memory(Some(moment)),
    }
}

// A read at this moment, whose floor is met.
fn read<O: Office>(
    alloc: Global,
    office: &mut O,
    caller: &Caller,
    ask: &Ask,
    moment: Moment,
) -> Told
    ensures handled { (message : wire.Message) (floor : Maybe ℕ) → IsAsked message (asking.Given caller.now floor (Call.Read ask.now)) → HandledAbove O.stands O.accepted O.alone office.old office.new floor message result.step (reply_of result.step result.reply) }
    ensures timed { IsTimed moment result.step }
    ensures faults { Rise (keeper_faults_of result.step) (O.office_faults office.old) (O.office_faults office.new) }
    ensures same { O.same office.old office.new }
{
    let Ok(answer) = office.read(alloc, ask, caller, moment) else {
        return no_memory(Some(moment));
    };
    let number = answer.number;
    let reply = served_reply(alloc, number, moment, &answer.value);
    let_go(answer);
    match reply {
        Ok(bytes) => Told {
            step: Step::Served { number, moment },
            reply: Some(bytes),
        },
        Err(_) => no_memory(Some(moment)),
    }
}

fn is_refused(answer: &Answer) -> bool
    ensures { MatchBool result (accepts answer.now ≡ 0) (accepts answer.now ≡ 1) }
{
    match answer {
        Answer::Refused(_) => true,
        _ => false,
    }
}

// The reply to a write that was answered.
fn show(alloc: Global, answer: Numbered<Answer>, moment: Moment) -> Told
    ensures { IsShown answer.number moment answer.value result.step (reply_of result.step result.reply) }
{
    let number = answer.number;
    let refused = is_refused(&answer.value);
    let reply = served_reply(alloc, number, moment, &answer.value);
    let_go(answer);
    match reply {
        Ok(bytes) => Told {
            step: Step::Served { number, moment },
            reply: Some(bytes),
        },
        Err(_) => {
            if refused {
                no_memory(Some(moment))
            } else {
                stored(number, moment)
            }
        }
    }
}

// The reply to a write that was stopped.
fn stop(alloc: Global, stop: WriteStop, moment: Moment) -> Told
    ensures { IsStopped stop moment result.step (reply_of result.step result.reply) }
{
    match stop {
        WriteStop::KeeperFault => no_keeper(alloc, moment),
        WriteStop::OutOfMemory { stored: None } => no_memory(Some(moment)),
        WriteStop::OutOfMemory {
            stored: Some(number),
        } => stored(number, moment),
    }
}

// The reply where a floor isn't reached.
fn unreached(alloc: Global, stop: Unreached, moment: Moment) -> Told
    ensures { IsUnreached stop moment result.step (reply_of result.step result.reply) }
{
    match stop {
        Unreached::Ahead { asked, known } => show(
            alloc,
            Numbered {
                number: known,
                value: Answer::Refused(Refusal::FutureRevision { asked, known }),
            },
            moment,
        ),
        Unreached::OutOfMemory => no_memory(Some(moment)),
    }
}

// A read at this moment, behind its floor.
fn read_above<O: Office>(
    alloc: Global,
    office: &mut O,
    caller: &Caller,
    floor: Option<u64>,
    ask: &Ask,
    moment: Moment,
) -> Told
    ensures handled { (message : wire.Message) → IsAsked message (asking.Given caller.now floor (Call.Read ask.now)) → Handled O.stands O.accepted O.alone office.old office.new message result.step (reply_of result.step result.reply) }
    ensures timed { IsTimed moment result.step }
    ensures faults { Rise (keeper_faults_of result.step) (O.office_faults office.old) (O.office_faults office.new) }
    ensures same { O.same office.old office.new }
{
    match reach(alloc, office, floor) {
        Ok(()) => read(alloc, office, caller, ask, moment),
        Err(stop) => unreached(alloc, stop, moment),
    }
}

// A read: the clock is asked, and then the office.
fn serve<O: Office, C: Clock>(
    alloc: Global,
    office: &mut O,
    clock: &mut C,
    caller: &Caller,
    floor: Option<u64>,
    ask: &Ask,
) -> Told
    ensures handled { (message : wire.Message) → IsAsked message (asking.Given caller.now floor (Call.Read ask.now)) → Handled O.stands O.accepted O.alone office.old office.new message result.step (reply_of result.step result.reply) }
    ensures clock { Clocked (C.given clock.old) (C.given clock.new) (C.clock_faults clock.old) (C.clock_faults clock.new) (result.step ∷ []) }
    ensures faults { Rise (keeper_faults_of result.step) (O.office_faults office.old) (O.office_faults office.new) }
    ensures same { O.same office.old office.new }
{
    match clock.now() {
        Ok(moment) => read_above(alloc, office, caller, floor, ask, moment),
        Err(_) => no_clock(alloc),
    }
}

// A write at its moment, whose floor is met.
fn write<O: Office>(alloc: Global, office: &mut O, entry: Entry) -> Told
    requires { IsEntry entry }
    ensures handled { (message : wire.Message) (floor : Maybe ℕ) → IsAsked message (asking.Given entry.caller floor (Call.Write entry.command)) → HandledAbove O.stands O.accepted O.alone office.old office.new floor message result.step (reply_of result.step result.reply) }
    ensures timed { IsTimed entry.moment result.step }
    ensures faults { Rise (keeper_faults_of result.step) (O.office_faults office.old) (O.office_faults office.new) }
    ensures same { O.same office.old office.new }
{
    let moment = entry.moment;
    match office.write(alloc, entry) {
        Ok(answer) => show(alloc, answer, moment),
        Err(stopped) => stop(alloc, stopped, moment),
    }
}

// A write at its moment, behind its floor.
fn write_above<O: Office>(alloc: Global, office: &mut O, floor: Option<u64>, entry: Entry) -> Told
    requires { IsEntry entry }
    ensures handled { (message : wire.Message) → IsAsked message (asking.Given entry.caller floor (Call.Write entry.command)) → Handled O.stands O.accepted O.alone office.old office.new message result.step (reply_of result.step result.reply) }
    ensures timed { IsTimed entry.moment result.step }
    ensures faults { Rise (keeper_faults_of result.step) (O.office_faults office.old) (O.office_faults office.new) }
    ensures same { O.same office.old office.new }
{
    match reach(alloc, office, floor) {
        Ok(()) => write(alloc, office, entry),
        Err(stop) => {
            let moment = entry.moment;
            let_go(entry);
            unreached(alloc, stop, moment)
        }
    }
}

// A write: the clock is asked, and then the office.
fn serve_write<O: Office, C: Clock>(
    alloc: Global,
    office: &mut O,
    clock: &mut C,
    caller: Caller,
    floor: Option<u64>,
    command: Command,
) -> Told
    requires caller { IsCaller caller }
    requires command { IsCommand command }
    ensures handled { (message : wire.Message) → IsAsked message (asking.Given caller floor (Call.Write command)) → Handled O.stands O.accepted O.alone office.old office.new message result.step (reply_of result.step result.reply) }
    ensures clock { Clocked (C.given clock.old) (C.given clock.new) (C.clock_faults clock.old) (C.clock_faults clock.new) (result.step ∷ []) }
    ensures faults { Rise (keeper_faults_of result.step) (O.office_faults office.old) (O.office_faults office.new) }
    ensures same { O.same office.old office.new }
{
    match clock.now() {
        Ok(moment) => write_above(
            alloc,
            office,
            floor,
            Entry {
                caller,
                moment,
                command,
            },
        ),
        Err(_) => {
            let_go(command);
            let_go(caller);
            no_clock(alloc)
        }
    }
}

/// One message: what it alone gives, then the clock, then its floor, then the office, then its reply.
pub fn handle<O: Office, C: Clock>(
    alloc: Global,
    office: &mut O,
    clock: &mut C,
    routes: &Routes,
    message: &Message,
) -> Told
    ensures handled { Handled O.stands O.accepted O.alone office.old office.new message.now result.step (reply_of result.step result.reply) }
    ensures clock { Clocked (C.given clock.old) (C.given clock.new) (C.clock_faults clock.old) (C.clock_faults clock.new) (result.step ∷ []) }
    ensures faults { Rise (keeper_faults_of result.step) (O.office_faults office.old) (O.office_faults office.new) }
    ensures same { O.same office.old office.new }
{
    match asked(alloc, message, routes) {
        Ok(Asked::Refused(error)) => {
            let told = refuse(alloc, Step::Plain, &error);
            let_go(error);
            told
        }
        Ok(
            Asked::Given {
                caller,
                floor,
                call,
            },
        ) => match call {
            Call::Read(ask) => {
                let told = serve(alloc, office, clock, &caller, floor, &ask);
                let_go(ask);
                let_go(caller);
                told
            }
            Call::Write(command) => serve_write(alloc, office, clock, caller, floor, command),
        },
        Err(_) => no_memory(None),
    }
}
