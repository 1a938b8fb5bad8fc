// One run of the program.
ghost use Rattle.std.specs.Prelude.{◌≡◌, ◌⊎◌, [], ℕ, List as Items, IfSome, sum_by};
ghost use Rattle.std.specs.declared.option.Option.{Option as Maybe};
ghost use Rattle.iam_model.specs.Opening.{IsOpening};
ghost use Rattle.iam_office.specs.Turns.{Clocked, Rise, all_keeper_faults, clock_faults_of};
ghost use Rattle.iam_plan.specs.Plan.{IsPlan};
ghost use Rattle.iam_plan.specs.declared.plan.Plan.{Plan};
ghost use Rattle.iam_rows.specs.Kept.{KeepsTables};
ghost use Rattle.iam_types.specs.declared.tables.Opening.{Opening};
ghost use Rattle.iam_server.specs.Run as spec;
ghost use Rattle.iam_server.specs.Run.{CameTo, EndsUnread, EndsWithCause, TalkedFrom, outside_at};

use crate::asking::{Access, ask};
use crate::opening::{opened, without_talk};
use crate::{RunEnd, Status};
use iam_catalogue::Catalogue;
use iam_judge::Index;
use iam_lone::converse_alone;
use iam_outer::{Clock, Keeper, Line, TalkEnd, Text, Zones};
use iam_plan::{Plan, PlanStop, openings_are_formed, plan_of};
use iam_text::let_go;
use iam_types::Opening;
use std::alloc::Global;

fn status_of(end: TalkEnd) -> Status
    ensures { result ≡ spec.status_of end }
{
    match end {
        TalkEnd::Done => Status::Done,
        TalkEnd::Cut => Status::Cut,
        TalkEnd::BadFrame => Status::BadFrame,
        TalkEnd::ReadFault => Status::ReadFault,
        TalkEnd::WriteFault => Status::WriteFault,
        TalkEnd::ClockFault => Status::ClockFault,
        TalkEnd::Enough => Status::Enough,
        TalkEnd::OutOfMemory => Status::OutOfMemory,
    }
}

// The conversation over the line, from the index's tables on, which are the keeper's.
fn talk_over<L: Line, C: Clock, P: Keeper>(
    alloc: Global,
    index: Index,
    keeper: &mut P,
    line: &mut L,
    clock: &mut C,
) -> RunEnd
    requires { KeepsTables (P.rows keeper.old) index }
    ensures talked { TalkedFrom index (P.rows keeper.new) (L.left line.old) (L.left line.new) (L.taken line.old) (L.taken line.new) result.status result.trace }
    ensures causes { EndsWithCause result.status (P.keeper_faults keeper.old) (P.keeper_faults keeper.new) (L.read_faults line.old) (L.read_faults line.new) (L.write_faults line.old) (L.write_faults line.new) (C.clock_faults clock.old) (C.clock_faults clock.new) }
    ensures faults { Rise (all_keeper_faults result.trace) (P.keeper_faults keeper.old) (P.keeper_faults keeper.new) }
    ensures clock { Clocked (C.given clock.old) (C.given clock.new) (C.clock_faults clock.old) (C.clock_faults clock.new) result.trace }
{
    let talk = converse_alone(alloc, index, keeper, line, clock);
    RunEnd {
        status: status_of(talk.end),
        trace: talk.trace,
    }
}

// Opens the keeper's tables and talks over the line.
fn apply<L: Line, C: Clock, P: Keeper>(
    alloc: Global,
    opening: Option<Opening>,
    line: &mut L,
    clock: &mut C,
    keeper: &mut P,
    catalogue: Catalogue,
    zones: Zones,
) -> RunEnd
    requires { IfSome opening IsOpening }
    ensures came { (db : Maybe (Items ℕ)) → CameTo (Plan.Apply db opening)
        (outside_at L.left L.read_faults L.taken C.given P.rows line.old clock.old keeper.old)
        (outside_at L.left L.read_faults L.taken C.given P.rows line.new clock.new keeper.new) result.status result.trace }
    ensures causes { EndsWithCause result.status (P.keeper_faults keeper.old) (P.keeper_faults keeper.new) (L.read_faults line.old) (L.read_faults line.new) (L.write_faults line.old) (L.write_faults line.new) (C.clock_faults clock.old) (C.clock_faults clock.new) }
    ensures faults { Rise (all_keeper_faults result.trace) (P.keeper_faults keeper.old) (P.keeper_faults keeper.new) }
    ensures clock { Rise (sum_by clock_faults_of result.trace) (C.clock_faults clock.old) (C.clock_faults clock.new) }
{
    match opened(alloc, opening, keeper, catalogue, zones) {
        Ok(index) => talk_over(alloc, index, keeper, line, clock),
        Err(end) => end,
    }
}

// Does what the plan says over the line.
fn carry_out<L: Line, C: Clock, P: Keeper>(
    alloc: Global,
    plan: Plan,
    line: &mut L,
    clock: &mut C,
    keeper: &mut P,
    catalogue: Catalogue,
    zones: Zones,
) -> RunEnd
    requires { (db : Maybe (Items ℕ)) (opening : Maybe Opening) → plan ≡ Plan.Apply db opening → IfSome opening IsOpening }
    ensures came { CameTo plan
        (outside_at L.left L.read_faults L.taken C.given P.rows line.old clock.old keeper.old)
        (outside_at L.left L.read_faults L.taken C.given P.rows line.new clock.new keeper.new) result.status result.trace }
    ensures causes { EndsWithCause result.status (P.keeper_faults keeper.old) (P.keeper_faults keeper.new) (L.read_faults line.old) (L.read_faults line.new) (L.write_faults line.old) (L.write_faults line.new) (C.clock_faults clock.old) (C.clock_faults clock.new) }
    ensures faults { Rise (all_keeper_faults result.trace) (P.keeper_faults keeper.old) (P.keeper_faults keeper.new) }
    ensures clock { Rise (sum_by clock_faults_of result.trace) (C.clock_faults clock.old) (C.clock_faults clock.new) }
{
    match plan {
        Plan::Apply { db: _db, opening } => {
            apply(alloc, opening, line, clock, keeper, catalogue, zones)
        }
        Plan::Ask {
            db: _db,
            principal,
            resource,
            permission,
        } => {
            let access = Access {
                principal,
                resource,
                permission,
            };
            let end = ask(alloc, &access, line, clock, keeper, catalogue, zones);
            let_go(access);
            end
        }
    }
}

/// Does what the words say over the line, on the tables of the rows that the keeper has.
///
/// `apply`: where the keeper has no rows, those of the opening are kept first; where rows are there, an opening is passed
/// over. Then the messages of the line are answered one after another from these tables on, each as soon as it is whole, and each accepted change is
/// kept before it is answered. `ask`: one line says who may do what; nothing is read and nothing kept.
pub fn run<L: Line, C: Clock, P: Keeper>(
    alloc: Global,
    words: &[Text],
    line: &mut L,
    clock: &mut C,
    keeper: &mut P,
    catalogue: Catalogue,
    zones: Zones,
) -> RunEnd
    ensures words { result.status ≡ Status.Words → (plan : Plan) → ¬ IsPlan words.now plan }
    ensures ran { (EndsUnread result.status × (line.new ≡ line.old) × (clock.new ≡ clock.old) × (keeper.new ≡ keeper.old) × (result.trace ≡ []))
        ⊎ ((plan : Plan) × IsPlan words.now plan × CameTo plan
        (outside_at L.left L.read_faults L.taken C.given P.rows line.old clock.old keeper.old)
        (outside_at L.left L.read_faults L.taken C.given P.rows line.new clock.new keeper.new) result.status result.trace) }
    ensures causes { EndsWithCause result.status (P.keeper_faults keeper.old) (P.keeper_faults keeper.new) (L.read_faults line.old) (L.read_faults line.new) (L.write_faults line.old) (L.write_faults line.new) (C.clock_faults clock.old) (C.clock_faults clock.new) }
    ensures faults { Rise (all_keeper_faults result.trace) (P.keeper_faults keeper.old) (P.keeper_faults keeper.new) }
    ensures clock { Rise (sum_by clock_faults_of result.trace) (C.clock_faults clock.old) (C.clock_faults clock.new) }
{
    openings_are_formed();
    match plan_of(alloc, words) {
        Ok(plan) => carry_out(alloc, plan, line, clock, keeper, catalogue, zones),
        Err(PlanStop::Words) => without_talk(alloc, Status::Words),
        Err(PlanStop::OutOfMemory) => without_talk(alloc, Status::OutOfMemory),
    }
}
