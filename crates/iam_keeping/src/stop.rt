// Why no tables are opened.
use iam_outer::KeeperStop;
use iam_text::OutOfMemory;

/// Why loaded rows are refused: there are none and nothing to open, the first bad row by its place from 0, or the first
/// rule that their facts break.
#[derive(Clone, Copy, PartialEq, Eq)]
pub enum LoadFault {
    Empty,
    BadRow { index: u64 },
    Inconsistent { rule: u8 },
}

/// Why no tables are opened: the rows are refused, the keeper failed, or memory was refused.
#[derive(Clone, Copy)]
pub enum OpenStop {
    Rows(LoadFault),
    Keeper,
    OutOfMemory,
}

impl From<OutOfMemory> for OpenStop {
    ghost use Rattle.std.specs.Prelude.{◌≡◌};
    ghost use Rattle.iam_keeping.specs.declared.stop.OpenStop.TheVariants as variant;

    ghost from_gives = { λ _ stop. stop ≡ variant.OutOfMemory };

    fn from(_: OutOfMemory) -> OpenStop {
        OpenStop::OutOfMemory
    }
}

impl From<KeeperStop> for OpenStop {
    ghost use Rattle.std.specs.Prelude.{◌≡◌};
    ghost use Rattle.iam_keeping.specs.Stops.{stop_of};

    ghost from_gives = { λ e stop. stop ≡ stop_of e };

    fn from(stop: KeeperStop) -> OpenStop {
        match stop {
            KeeperStop::Failed => OpenStop::Keeper,
            KeeperStop::OutOfMemory => OpenStop::OutOfMemory,
        }
    }
}
