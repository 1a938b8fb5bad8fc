// What keeps rows.
ghost use Rattle.std.specs.Prelude.{◌≡◌, ℕ, List as Items, IfOk, OnOk, OnErr, IfSome};
ghost use Rattle.std.specs.declared.option.Option.{Option};

use crate::{List, OutOfMemory, Text};
use iam_text::Ordered;
use std::cmp::Ordering;

/// A row: which part of the tables it is of, its name there, and its body, which is compact JSON.
#[derive(Clone, PartialEq, Eq, Drop)]
pub struct Row {
    pub part: Text,
    pub name: Text,
    pub body: Text,
}

impl Ordered for Row {
    ghost use Rattle.iam_outer.specs.Rows.{row_order, row_order_total};

    ghost order = { row_order };

    ghost total = { row_order_total };

    fn order(&self, other: &Row) -> Ordering {
        match self.part.cmp(&other.part) {
            Ordering::Equal => self.name.cmp(&other.name),
            unequal => unequal,
        }
    }
}

/// What a commit does to one row.
#[derive(PartialEq, Eq, Drop)]
pub enum RowWrite {
    /// In place of the row of its part and name, where there is one.
    Put(Row),
    /// A row that isn't there may be cut.
    Cut { part: Text, name: Text },
}

#[derive(Clone, Copy, PartialEq, Eq)]
pub enum KeeperStop {
    Failed,
    OutOfMemory,
}

impl From<OutOfMemory> for KeeperStop {
    ghost use Rattle.std.specs.Prelude.{◌≡◌};
    ghost use Rattle.iam_outer.specs.declared.keeper.KeeperStop.TheVariants.{OutOfMemory as NoMemory};

    ghost from_gives = { λ _ stop. stop ≡ NoMemory };

    fn from(_: OutOfMemory) -> KeeperStop {
        KeeperStop::OutOfMemory
    }
}

/// What keeps rows, ordered by part and then by name in bytes. Each commit makes all its writes or none.
pub trait Keeper {
    ghost use Rattle.iam_outer.specs.declared.keeper.Row.{Row};
    ghost use Rattle.iam_outer.specs.Rows.{row_order, Written, KeeperCause};
    ghost use Rattle.iam_text.specs.Put.{IsInOrder};

    /// The rows, where the keeper tells them.
    ghost rows: { Self → Option (Items Row) };

    /// How many calls failed.
    ghost keeper_faults: { Self → ℕ };

    /// One keeper is the other, later: of a keeper that is lent, the same loan.
    ghost same: { Self → Self → Type 0 } = { λ _ _. Unit {0} };

    fn load(&mut self) -> Result<List<Row>, KeeperStop>
        ensures rows { IfOk result (λ loaded. IfSome (rows self.old) (λ rows. loaded ≡ rows)) }
        ensures kept { rows self.new ≡ rows self.old }
        ensures cause { KeeperCause (keeper_faults self.old) (keeper_faults self.new) result }
        ensures same { same self.old self.new };

    fn commit(&mut self, writes: &[RowWrite]) -> Result<(), KeeperStop>
        ensures ok { OnOk result (Written (rows self.old) (rows self.new) writes.now) }
        ensures err { OnErr result (rows self.new ≡ rows self.old) }
        ensures cause { KeeperCause (keeper_faults self.old) (keeper_faults self.new) result }
        ensures same { same self.old self.new };

    ghost in_order: { (k : Self) → IfSome (rows k) (IsInOrder row_order) };

    ghost same_as_itself: { (k : Self) → same k k };

    ghost same_onward: { (a b c : Self) → same a b → same b c → same a c };
}

/// A keeper that is lent: what it keeps is what its owner has afterwards.
impl<P: Keeper> Keeper for &mut P {
    ghost use Rattle.std.specs.Prelude.{◌≡◌, refl};
    ghost use Rattle.std.proofs.Common.{◌∙◌};

    ghost rows = { λ k. P.rows k.now };

    ghost keeper_faults = { λ k. P.keeper_faults k.now };

    ghost same = { λ a b. b.ghost_name ≡ a.ghost_name };

    ghost in_order = { λ k. P.in_order k.now };

    ghost same_as_itself = { λ k. refl };

    ghost same_onward = { λ a b c ab bc. bc ∙ ab };

    fn load(&mut self) -> Result<List<Row>, KeeperStop> {
        (**self).load()
    }

    fn commit(&mut self, writes: &[RowWrite]) -> Result<(), KeeperStop> {
        (**self).commit(writes)
    }
}
