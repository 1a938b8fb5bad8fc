//! The outside: what the server reads from, writes to and asks, as traits with counts of faults, with
//! objects in memory that tell all they hold and adapters to the real things that tell nothing.
//!
//! Each trait says what a call does where the object tells what it holds, and that `Failed` comes only
//! where the object's count of faults rose. Of the objects in memory exactly the numbered calls fail.
#![tactic(auto)]

mod adapters;
mod clock;
mod keeper;
mod line;
mod memory;
mod talk;
mod zones;

pub use adapters::{StdinSource, StdoutSink, SystemClock};
pub use clock::Clock;
pub use iam_text::{List, Moment, OutOfMemory, Text};
pub use keeper::{Keeper, KeeperStop, Row, RowWrite};
pub use line::{Failed, Line, Sink, Source, receive, send};
pub use memory::{MemoryClock, MemoryKeeper, MemorySink, MemorySource, Pair};
pub use talk::{Step, Talk, TalkEnd};
pub use zones::Zones;
