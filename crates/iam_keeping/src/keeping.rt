// The commit of changes.
ghost use Rattle.std.specs.Prelude.{◌≡◌, All, List, IfSome, OnOk, OnErr};
ghost use Rattle.iam_types.specs.declared.fact.Fact.{Fact};
ghost use Rattle.iam_model.specs.Facts.{with_changes};
ghost use Rattle.iam_model.specs.Formed.{IsChange};
ghost use Rattle.iam_outer.specs.Rows.{KeeperCause};
ghost use Rattle.iam_rows.specs.Kept.{AreRows};

use iam_outer::{Keeper, KeeperStop};
use iam_rows::{rows_follow_changes, writes_of};
use iam_types::FactChange;
use std::alloc::Global;

/// Keeps changes: all of them in one commit, or none.
pub fn keep<P: Keeper>(
    alloc: Global,
    keeper: &mut P,
    changes: &[FactChange],
) -> Result<(), KeeperStop>
    requires { All IsChange changes.now }
    ensures ok { (facts : List Fact) → OnOk result (IfSome (P.rows keeper.old) (AreRows facts) → IfSome (P.rows keeper.new) (AreRows (with_changes facts changes.now))) }
    ensures err { OnErr result (P.rows keeper.new ≡ P.rows keeper.old) }
    ensures cause { KeeperCause (P.keeper_faults keeper.old) (P.keeper_faults keeper.new) result }
    ensures same { P.same keeper.old keeper.new }
{
    rows_follow_changes();
    let writes = writes_of(alloc, changes)?;
    keeper.commit(writes.as_slice())
}
