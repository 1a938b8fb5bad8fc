//! The tables after an entry that fits.
#![tactic(auto)]

mod allow;
mod change;
mod node_changes;
mod nodes;

pub use change::apply;
