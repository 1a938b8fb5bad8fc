// The tables that a run stands on.
ghost use Rattle.std.specs.Prelude.{◌≡◌, ◌≤◌, [], IfErr, IfOk, IfSome, OnOk};
ghost use Rattle.iam_keeping.specs.Opened.{IsLeft, IsOpenedFrom};
ghost use Rattle.iam_model.specs.Opening.{IsOpening};
ghost use Rattle.iam_outer.specs.Causes.{Rose};
ghost use Rattle.iam_rows.specs.Kept.{KeepsTables};
ghost use Rattle.iam_server.specs.Run.{EndsUnopened};

use crate::{RunEnd, Status};
use iam_catalogue::Catalogue;
use iam_judge::Index;
use iam_keeping::{OpenStop, open};
use iam_outer::{Keeper, List, Zones};
use iam_types::Opening;
use std::alloc::Global;

/// A run that has no conversation.
pub fn without_talk(alloc: Global, status: Status) -> RunEnd
    ensures status { result.status ≡ status }
    ensures trace { result.trace ≡ [] }
{
    RunEnd {
        status,
        trace: List::new(alloc),
    }
}

/// Opens the keeper's tables, or says how the run ends without them.
pub fn opened<P: Keeper>(
    alloc: Global,
    opening: Option<Opening>,
    keeper: &mut P,
    catalogue: Catalogue,
    zones: Zones,
) -> Result<Index, RunEnd>
    requires { IfSome opening IsOpening }
    ensures opened { IfOk result (λ index. IfSome (P.rows keeper.old) (λ rows. IsOpenedFrom opening rows index)) }
    ensures kept { IfOk result (KeepsTables (P.rows keeper.new)) }
    ensures left { OnOk result (IsLeft opening (P.rows keeper.old) (P.rows keeper.new)) }
    ensures unopened { IfErr result (λ end. EndsUnopened opening (P.rows keeper.old) (P.rows keeper.new) end.status) }
    ensures traceless { IfErr result (λ end. end.trace ≡ []) }
    ensures cause { IfErr result (λ end. end.status ≡ Status.Keeper → Rose (P.keeper_faults keeper.old) (P.keeper_faults keeper.new)) }
    ensures later { P.keeper_faults keeper.old ≤ P.keeper_faults keeper.new }
{
    match open(alloc, opening, keeper, catalogue, zones) {
        Ok(index) => Ok(index),
        Err(OpenStop::Rows(fault)) => Err(without_talk(alloc, Status::Rows(fault))),
        Err(OpenStop::Keeper) => Err(without_talk(alloc, Status::Keeper)),
        Err(OpenStop::OutOfMemory) => Err(without_talk(alloc, Status::OutOfMemory)),
    }
}
