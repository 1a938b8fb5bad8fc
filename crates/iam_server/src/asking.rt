// Access to a node, told in a line.
ghost use Rattle.std.specs.Prelude.{◌≡◌, ℕ, List as Items, sum_by};
ghost use Rattle.std.specs.declared.option.Option.{Option as Maybe};
ghost use Rattle.iam_ask.specs.Access.{access_line};
ghost use Rattle.iam_office.specs.Turns.{Rise, all_keeper_faults, clock_faults_of};
ghost use Rattle.iam_plan.specs.declared.plan.Plan.{Plan};
ghost use Rattle.iam_server.specs.Run.{CameTo, EndsWithCause, ToldAt, WroteLine, outside_at};

use crate::opening::{opened, without_talk};
use crate::{RunEnd, Status};
use iam_catalogue::Catalogue;
use iam_judge::Index;
use iam_names::{Caller, NodeName};
use iam_office::send_all;
use iam_outer::{Clock, Keeper, Line, Moment, Text, Zones};
use std::alloc::Global;

/// Whose access to what is asked.
#[derive(Drop)]
pub struct Access {
    pub principal: Caller,
    pub resource: NodeName,
    pub permission: Text,
}

// Writes the line.
fn write_line<L: Line>(line: &mut L, text: &Text) -> Status
    ensures wrote { WroteLine result (L.taken line.old) (L.taken line.new) text.now }
    ensures left { L.left line.new ≡ L.left line.old }
    ensures read_faults { L.read_faults line.new ≡ L.read_faults line.old }
    ensures causes { (keeper keeper_later clock clock_later : ℕ) → EndsWithCause result keeper keeper_later (L.read_faults line.old) (L.read_faults line.new) (L.write_faults line.old) (L.write_faults line.new) clock clock_later }
{
    match send_all(line, text.as_str().as_bytes()) {
        Ok(()) => Status::Done,
        Err(_) => Status::WriteFault,
    }
}

// Writes the line of the access at this moment.
fn tell_at<L: Line>(
    alloc: Global,
    index: &Index,
    access: &Access,
    moment: Moment,
    line: &mut L,
) -> Status
    ensures wrote { WroteLine result (L.taken line.old) (L.taken line.new) (access_line index.now access.now.principal moment access.now.resource access.now.permission) }
    ensures left { L.left line.new ≡ L.left line.old }
    ensures read_faults { L.read_faults line.new ≡ L.read_faults line.old }
    ensures causes { (keeper keeper_later clock clock_later : ℕ) → EndsWithCause result keeper keeper_later (L.read_faults line.old) (L.read_faults line.new) (L.write_faults line.old) (L.write_faults line.new) clock clock_later }
{
    let permission = access.permission.as_str();
    match iam_ask::ask(
        alloc,
        index,
        &access.principal,
        &access.resource,
        permission,
        moment,
    ) {
        Ok(text) => write_line(line, &text),
        Err(_) => Status::OutOfMemory,
    }
}

// Writes the line of the access at the moment that the clock gives.
fn tell<L: Line, C: Clock>(
    alloc: Global,
    index: &Index,
    access: &Access,
    line: &mut L,
    clock: &mut C,
) -> Status
    ensures told { ToldAt (λ moment. access_line index.now access.now.principal moment access.now.resource access.now.permission) (C.given clock.old) (C.given clock.new) (L.taken line.old) (L.taken line.new) result }
    ensures left { L.left line.new ≡ L.left line.old }
    ensures read_faults { L.read_faults line.new ≡ L.read_faults line.old }
    ensures clock { Rise 0 (C.clock_faults clock.old) (C.clock_faults clock.new) }
    ensures causes { (keeper keeper_later : ℕ) → EndsWithCause result keeper keeper_later (L.read_faults line.old) (L.read_faults line.new) (L.write_faults line.old) (L.write_faults line.new) (C.clock_faults clock.old) (C.clock_faults clock.new) }
{
    match clock.now() {
        Ok(moment) => tell_at(alloc, index, access, moment, line),
        Err(_) => Status::ClockFault,
    }
}

/// Opens the keeper's tables and writes the line of the access.
pub fn ask<L: Line, C: Clock, P: Keeper>(
    alloc: Global,
    access: &Access,
    line: &mut L,
    clock: &mut C,
    keeper: &mut P,
    catalogue: Catalogue,
    zones: Zones,
) -> RunEnd
    ensures came { (db : Maybe (Items ℕ)) → CameTo (Plan.Ask db access.now.principal access.now.resource access.now.permission)
        (outside_at L.left L.read_faults L.taken C.given P.rows line.old clock.old keeper.old)
        (outside_at L.left L.read_faults L.taken C.given P.rows line.new clock.new keeper.new) result.status result.trace }
    ensures causes { EndsWithCause result.status (P.keeper_faults keeper.old) (P.keeper_faults keeper.new) (L.read_faults line.old) (L.read_faults line.new) (L.write_faults line.old) (L.write_faults line.new) (C.clock_faults clock.old) (C.clock_faults clock.new) }
    ensures faults { Rise (all_keeper_faults result.trace) (P.keeper_faults keeper.old) (P.keeper_faults keeper.new) }
    ensures clock { Rise (sum_by clock_faults_of result.trace) (C.clock_faults clock.old) (C.clock_faults clock.new) }
{
    match opened(alloc, None, keeper, catalogue, zones) {
        Ok(index) => {
            let status = tell(alloc, &index, access, line, clock);
            without_talk(alloc, status)
        }
        Err(end) => end,
    }
}
