ghost use Rattle.std.specs.Prelude.{ℕ, List, IfOk};
ghost use Rattle.std.specs.declared.option.Option.{Option};
ghost use Rattle.iam_outer.specs.Causes.{HasCause};

use crate::{Failed, Moment};

/// What tells the time.
pub trait Clock {
    ghost use Rattle.iam_text.specs.Moments.{IsMoment};
    ghost use Rattle.iam_text.specs.declared.moment.Moment.{Moment};
    ghost use Rattle.iam_outer.specs.Given.{GivesMoment};

    /// The moments that the clock has given, where it tells them.
    ghost given: { Self → Option (List Moment) };

    /// How many calls failed.
    ghost clock_faults: { Self → ℕ };

    /// The moment that it is. A clock may stand still or go back.
    fn now(&mut self) -> Result<Moment, Failed>
        ensures range { IfOk result IsMoment }
        ensures given { GivesMoment (given self.old) (given self.new) result }
        ensures cause { HasCause (clock_faults self.old) (clock_faults self.new) result };
}
