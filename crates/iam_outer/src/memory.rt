// Sources, sinks, clocks and keepers in memory, which tell all that they hold.

mod calls;
mod clock;
mod keeper;
mod line;

pub use clock::MemoryClock;
pub use keeper::MemoryKeeper;
pub use line::{MemorySink, MemorySource, Pair};
