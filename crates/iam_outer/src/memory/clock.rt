ghost use Rattle.std.specs.Prelude.{◌≡◌, ◌<◌, ◌↔◌, length, IsErr, OnErr, IfOk, All};
ghost use Rattle.iam_text.specs.Moments.{IsMoment};
ghost use Rattle.iam_outer.specs.Causes.{HasCause, one_more};
ghost use Rattle.iam_outer.specs.Given.{GivesMoment, moment_at, moments_told};
ghost use Rattle.iam_outer.specs.Memory.{FailsNext, fresh, passed, failed};

use super::calls::Calls;
use crate::{Clock, Failed, List, Moment};
use std::marker::Model;

/// Gives the moments of a list, one for each call that doesn't fail, and the last one from then on.
#[derive(Drop)]
pub struct MemoryClock {
    moments: List<Moment>,
    given: u64,
    calls: Calls,
}

impl Model for MemoryClock {
    ghost use Rattle.std.specs.Prelude.{◌<◌, length, All};
    ghost use Rattle.iam_text.specs.Moments.{IsMoment};
    ghost use Rattle.iam_outer.specs.Memory.{Ticking};

    ghost Value = { Ticking };

    ghost view = { λ c. record { moments = c.moments; given = c.given; failing = c.calls } };

    ghost invariant = { λ c. (0 < length c.moments) × All IsMoment c.moments };
}

impl MemoryClock {
    pub fn new(moments: List<Moment>, failing: List<u64>) -> MemoryClock
        requires some { 0 < length moments }
        requires in_range { All IsMoment moments }
        ensures { result ≡ record { moments = moments; given = 0; failing = fresh failing } }
    {
        MemoryClock {
            moments,
            given: 0,
            calls: Calls::new(failing),
        }
    }

    // The moment that the next call gives.
    fn next(&self) -> Moment
        ensures moment { result ≡ moment_at self.now.moments self.now.given }
        ensures range { IsMoment result }
    {
        let moments = self.moments.as_slice();
        let last = moments.len() - 1;
        moments[(self.given.min(last as u64)) as usize]
    }
}

impl Clock for MemoryClock {
    ghost given = { λ c. moments_told c.moments c.given };

    ghost clock_faults = { λ c. c.failing.faults };

    fn now(&mut self) -> Result<Moment, Failed>
        ensures range { IfOk result IsMoment }
        ensures given { GivesMoment (moments_told self.old.moments self.old.given) (moments_told self.new.moments self.new.given) result }
        ensures cause { HasCause self.old.failing.faults self.new.failing.faults result }
        ensures fails { IsErr result ↔ FailsNext self.old.failing }
        ensures at_err { OnErr result (self.new ≡ record self.old { failing = failed self.old.failing }) }
        ensures at_ok { IfOk result (λ m. (m ≡ moment_at self.old.moments self.old.given)
            × (self.new ≡ record self.old { given = one_more self.old.given; failing = passed self.old.failing })) }
    {
        let moment = self.next();
        if self.calls.fails(false) {
            return Err(Failed);
        }
        self.given = self.given.saturating_add(1);
        Ok(moment)
    }
}
