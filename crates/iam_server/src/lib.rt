//! The top: the run of what the words ask for, over one line.
//!
//! The contract of `run` says, for every input and all words, what the plan of the words comes to: which messages are
//! answered by which bytes, from the tables that were opened on, or which line of words is written from them, and how the
//! run ends, and that a fault is answered only where its count rose.
#![tactic(auto)]

mod asking;
mod ends;
mod opening;
mod runs;

pub use ends::{RunEnd, Status};
pub use iam_answer::answer;
pub use iam_keeping::LoadFault;
pub use iam_lone::Lone;
pub use iam_office::{FloorStop, Numbered, Office, WriteStop, converse};
pub use runs::run;
