// What a conversation asks: reads and writes of one history.
ghost use Rattle.std.specs.Prelude.{◌≡◌, ◌+◌, ◌≤◌, ℕ, List as Items, Bool, IsErrOf};
ghost use Rattle.iam_model.specs.Commands.{IsEntry};
ghost use Rattle.iam_law.specs.History.{Legal};
ghost use Rattle.iam_outer.specs.Causes.{Rose};

use iam_names::Caller;
use iam_text::{Moment, OutOfMemory};
use iam_types::{Answer, Ask, Entry};
use std::alloc::Global;

/// A value, and the number of the state that gave it.
#[derive(Drop)]
pub struct Numbered<T> {
    pub number: u64,
    pub value: T,
}

/// Why a floor isn't reached: it exceeds the number that is known, or memory was refused.
#[derive(Clone, Copy)]
pub enum FloorStop {
    Ahead { known: u64 },
    OutOfMemory,
}

/// Why a write has no answer: the keeper failed and the write isn't made, or memory was refused; `stored` is the number
/// of the accepted write, where it is made all the same.
#[derive(Clone, Copy)]
pub enum WriteStop {
    KeeperFault,
    OutOfMemory { stored: Option<u64> },
}

/// What answers reads and judges writes. It stands for pairs of first tables and the history since, in which it is at the end.
pub trait Office {
    ghost use Rattle.iam_types.specs.declared.command.Entry.{Entry};
    ghost use Rattle.iam_types.specs.declared.tables.Tables.{Tables};
    ghost use Rattle.iam_office.specs.Office.{Leads, FloorTold, ReadTold, WriteTold, accepted_by};

    /// The pairs of first tables and history that it stands for.
    ghost stands: { Self → Tables → Items Entry → Type 0 };

    /// How often its keeper failed.
    ghost office_faults: { Self → ℕ };

    /// How many writes were accepted or stored.
    ghost accepted: { Self → ℕ };

    /// Nobody else adds to the history.
    ghost alone: { Bool };

    /// One office is the other, later: of what it holds as a loan, the same loan.
    ghost same: { Self → Self → Type 0 } = { λ _ _. Unit {0} };

    /// Goes on to a history of at least this number, where it can.
    fn at_least(&mut self, alloc: Global, floor: u64) -> Result<(), FloorStop>
        ensures told { Leads stands self.old self.new (FloorTold alone floor result) }
        ensures later { office_faults self.old ≤ office_faults self.new }
        ensures accepted { accepted self.new ≡ accepted self.old }
        ensures same { same self.old self.new };

    /// Answers a read in the state after the whole history.
    fn read(
        &mut self,
        alloc: Global,
        ask: &Ask,
        caller: &Caller,
        moment: Moment,
    ) -> Result<Numbered<Answer>, OutOfMemory>
        ensures told { Leads stands self.old self.new (ReadTold alone ask.now caller.now moment result) }
        ensures later { office_faults self.old ≤ office_faults self.new }
        ensures accepted { accepted self.new ≡ accepted self.old }
        ensures same { same self.old self.new };

    /// Judges a write in the state after the whole history, and adds it where it is accepted.
    fn write(&mut self, alloc: Global, entry: Entry) -> Result<Numbered<Answer>, WriteStop>
        requires { IsEntry entry }
        ensures told { Leads stands self.old self.new (WriteTold alone entry result) }
        ensures later { office_faults self.old ≤ office_faults self.new }
        ensures cause { IsErrOf result WriteStop.KeeperFault → Rose (office_faults self.old) (office_faults self.new) }
        ensures accepted { accepted self.new ≡ accepted self.old + accepted_by result }
        ensures same { same self.old self.new };

    /// Each history is legal.
    ghost legal: { (o : Self) (tables : Tables) (history : Items Entry) → stands o tables history → Legal tables history };

    ghost same_as_itself: { (o : Self) → same o o };

    ghost same_onward: { (a b c : Self) → same a b → same b c → same a c };
}
