//! Whether an entry is accepted, and what it then changes.
//!
//! `admit` gives the first refusal of the rules that the definitions of `iam_law` name for the entry's command, in
//! the tables of an index, or else the changes that lead from the facts before to the facts after the entry.
#![tactic(auto)]

mod accepted;
mod allow;
mod changes;
mod creation;
mod node_changes;
mod queries;
mod rules;
mod stop;

pub use accepted::{Accepted, admit};
