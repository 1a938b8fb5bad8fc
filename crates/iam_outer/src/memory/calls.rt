ghost use Rattle.std.specs.Prelude.{◌≡◌, ◌≤◌, ◌↔◌, ◌⊎◌, IsTrue};
ghost use Rattle.std.specs.Bool.{OnTrue, OnFalse};
ghost use Rattle.iam_outer.specs.Causes.{Rose};
ghost use Rattle.iam_outer.specs.Memory.{FailsNext, passed, failed};

use crate::List;
use std::marker::Model;

/// Which calls fail, counted from 1, and how many were made and failed.
#[derive(Drop)]
pub struct Calls {
    numbers: List<u64>,
    calls: u64,
    faults: u64,
}

impl Model for Calls {
    ghost use Rattle.iam_outer.specs.Memory.{Failing};

    ghost Value = { Failing };

    ghost view = { λ c. record { numbers = c.numbers; calls = c.calls; faults = c.faults } };
}

impl Calls {
    ghost use Rattle.iam_outer.specs.Memory.{fresh};

    pub fn new(numbers: List<u64>) -> Calls
        ensures { result ≡ fresh numbers }
    {
        Calls {
            numbers,
            calls: 0,
            faults: 0,
        }
    }

    /// Counts a call, and says whether it fails: by its number, or since `full` says so.
    pub fn fails(&mut self, full: bool) -> bool
        ensures cause { IsTrue result ↔ (FailsNext self.old ⊎ IsTrue full) }
        ensures failed { OnTrue result (self.new ≡ failed self.old) }
        ensures passed { OnFalse result (self.new ≡ passed self.old) }
        ensures later { self.old.faults ≤ self.new.faults }
        ensures rose { OnTrue result (Rose self.old.faults self.new.faults) }
    {
        self.calls = self.calls.saturating_add(1);
        let fails = full || self.numbers.as_slice().contains(&self.calls);
        if fails {
            self.faults = self.faults.saturating_add(1);
        }
        fails
    }
}
