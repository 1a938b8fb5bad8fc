// Why a row gives no fact.
use std::alloc::AllocError;

#[derive(Clone, Copy, Debug, PartialEq, Eq)]
pub enum RowStop {
    /// No well formed fact has the row.
    BadRow,
    OutOfMemory,
}

impl From<AllocError> for RowStop {
    ghost use Rattle.std.specs.Prelude.{◌≡◌};
    ghost use Rattle.iam_rows.specs.declared.stop.RowStop.TheVariants.{OutOfMemory};

    ghost from_gives = { λ e stop. stop ≡ OutOfMemory };

    fn from(_: AllocError) -> RowStop {
        RowStop::OutOfMemory
    }
}

impl From<iam_text::OutOfMemory> for RowStop {
    ghost use Rattle.std.specs.Prelude.{◌≡◌};
    ghost use Rattle.iam_rows.specs.declared.stop.RowStop.TheVariants.{OutOfMemory};

    ghost from_gives = { λ e stop. stop ≡ OutOfMemory };

    fn from(_: iam_text::OutOfMemory) -> RowStop {
        RowStop::OutOfMemory
    }
}

/// Why rows give no facts.
#[derive(Clone, Copy, Debug, PartialEq, Eq)]
pub enum LoadStop {
    /// The first row that no well formed fact has, by its place from 0.
    BadRow { index: u64 },
    OutOfMemory,
}

impl From<iam_text::OutOfMemory> for LoadStop {
    ghost use Rattle.std.specs.Prelude.{◌≡◌};
    ghost use Rattle.iam_rows.specs.declared.stop.LoadStop.TheVariants.{OutOfMemory};

    ghost from_gives = { λ e stop. stop ≡ OutOfMemory };

    fn from(_: iam_text::OutOfMemory) -> LoadStop {
        LoadStop::OutOfMemory
    }
}
