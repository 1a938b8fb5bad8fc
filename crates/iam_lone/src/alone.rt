// A conversation over an office of its own.
ghost use Rattle.std.specs.Prelude.{◌≡◌, None};
ghost use Rattle.iam_office.specs.Talks.{Caused, OfInput, Talked};
ghost use Rattle.iam_office.specs.Turns.{Clocked, Rise, all_keeper_faults};
ghost use Rattle.iam_rows.specs.Kept.{KeepsTables};
ghost use Rattle.iam_lone.specs.Ran.{RanFrom};

use crate::lone::Lone;
use iam_judge::Index;
use iam_office::converse;
use iam_outer::{Clock, Keeper, Line, Talk};
use std::alloc::Global;

// A conversation over an office in which no entry waits.
fn talk<L: Line, C: Clock, P: Keeper>(
    alloc: Global,
    office: &mut Lone<P>,
    line: &mut L,
    clock: &mut C,
) -> Talk
    requires { office.old.waiting ≡ None }
    ensures talked { OfInput (L.left line.old) (L.left line.new) (λ read unread. Talked (RanFrom office.old.tables (P.rows office.new.keeper)) (L.taken line.old) (L.taken line.new) read unread result.end result.trace) }
    ensures clock { Clocked (C.given clock.old) (C.given clock.new) (C.clock_faults clock.old) (C.clock_faults clock.new) result.trace }
    ensures faults { Rise (all_keeper_faults result.trace) (P.keeper_faults office.old.keeper) (P.keeper_faults office.new.keeper) }
    ensures causes { Caused result.end (L.read_faults line.old) (L.read_faults line.new) (L.write_faults line.old) (L.write_faults line.new) (C.clock_faults clock.old) (C.clock_faults clock.new) }
    ensures same { P.same office.old.keeper office.new.keeper }
{
    let _good = office.number();
    let talk = converse(alloc, office, line, clock);
    office.keeps();
    talk
}

/// A conversation from the tables of the index on, to which nobody else adds. The keeper is lent, and has to have the
/// rows of these tables.
pub fn converse_alone<L: Line, C: Clock, P: Keeper>(
    alloc: Global,
    index: Index,
    keeper: &mut P,
    line: &mut L,
    clock: &mut C,
) -> Talk
    requires { KeepsTables (P.rows keeper.old) index }
    ensures talked { OfInput (L.left line.old) (L.left line.new) (λ read unread. Talked (RanFrom index (P.rows keeper.new)) (L.taken line.old) (L.taken line.new) read unread result.end result.trace) }
    ensures clock { Clocked (C.given clock.old) (C.given clock.new) (C.clock_faults clock.old) (C.clock_faults clock.new) result.trace }
    ensures faults { Rise (all_keeper_faults result.trace) (P.keeper_faults keeper.old) (P.keeper_faults keeper.new) }
    ensures causes { Caused result.end (L.read_faults line.old) (L.read_faults line.new) (L.write_faults line.old) (L.write_faults line.new) (C.clock_faults clock.old) (C.clock_faults clock.new) }
{
    let mut office = Lone::new(index, &mut *keeper);
    let talk = talk(alloc, &mut office, line, clock);
    let _keeper = office.into_keeper();
    talk
}
