// How runs end.
ghost use Rattle.std.specs.Prelude.{◌≡◌};

use iam_keeping::LoadFault;
use iam_outer::{List, Step};

/// How a run ended.
#[derive(Clone, Copy, PartialEq, Eq)]
pub enum Status {
    Done,
    Words,
    Rows(LoadFault),
    Keeper,
    ReadFault,
    WriteFault,
    ClockFault,
    Cut,
    Enough,
    BadFrame,
    OutOfMemory,
}

impl Status {
    ghost use Rattle.iam_server.specs.Ends.{exit_of, word_of};

    /// The number that the process ends with.
    pub fn exit(self) -> u8
        ensures { result ≡ exit_of self }
    {
        match self {
            Status::Done => 0,
            Status::Words => 2,
            Status::Rows(_) => 3,
            Status::Keeper => 4,
            Status::ReadFault | Status::WriteFault | Status::ClockFault => 5,
            Status::Cut => 6,
            Status::Enough => 7,
            Status::BadFrame => 8,
            Status::OutOfMemory => 9,
        }
    }

    /// The word that is shown for it.
    pub fn word(self) -> &'static str
        ensures { result.now ≡ word_of self }
    {
        match self {
            Status::Done => "Done",
            Status::Words => "Words",
            Status::Rows(_) => "Rows",
            Status::Keeper => "Keeper",
            Status::ReadFault => "ReadFault",
            Status::WriteFault => "WriteFault",
            Status::ClockFault => "ClockFault",
            Status::Cut => "Cut",
            Status::Enough => "Enough",
            Status::BadFrame => "BadFrame",
            Status::OutOfMemory => "OutOfMemory",
        }
    }
}

/// The end of a run, and what its messages came to, in their order.
#[derive(Drop)]
pub struct RunEnd {
    pub status: Status,
    pub trace: List<Step>,
}
