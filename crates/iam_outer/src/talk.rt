use crate::{List, Moment};

/// What one message came to.
#[derive(Clone, Copy, Debug, PartialEq, Eq)]
pub enum Step {
    /// A reply that the message alone gives.
    Plain,
    /// A reply in the state of this number, at this moment.
    Served {
        number: u64,
        moment: Moment,
    },
    /// The clock failed.
    NoClock,
    /// The keeper failed, and the write isn't made.
    NoKeeper {
        moment: Moment,
    },
    /// Memory was refused: before the clock was asked, or at this moment; `stored` is the number of the
    /// accepted write, where the keeper has it.
    NoMemory {
        stored: Option<u64>,
        moment: Option<Moment>,
    },
}

/// How a conversation ended.
#[derive(Clone, Copy, PartialEq, Eq)]
pub enum TalkEnd {
    Done,
    Cut,
    BadFrame,
    ReadFault,
    WriteFault,
    ClockFault,
    Enough,
    OutOfMemory,
}

/// A conversation: how it ended, and what its messages came to, in their order.
#[derive(Drop)]
pub struct Talk {
    pub end: TalkEnd,
    pub trace: List<Step>,
}
