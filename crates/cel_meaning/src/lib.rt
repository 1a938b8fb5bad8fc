//! What conditions mean.
//!
//! `outcome_of`, a total function of specs, says what an expression comes to, errors being outcomes, and the relation
//! `Means` of `cel_types` stands above it. `evaluate` computes it from the facts of a request. It goes by heads: `head_of` reads
//! what a node is with its literals done, and `apply` gives what a head comes to of the values of the parts, without the tree.
//! Its steps give `Result`s in which a fault and the want of memory are two errors, so that each of them is handed on by `?`,
//! and the first part that stops is the last one that is evaluated.
#![tactic(auto)]

mod apply;
mod attributes;
mod durations;
mod evaluation;
mod forms;
mod head;
mod laws;
mod lists;
mod numbers;
mod operators;
mod parts;
mod scan;
mod stop;
mod tags;
mod texts;
mod time;
mod timestamps;

pub use evaluation::evaluate;
pub use laws::{outcomes_are_computed, parts_are_computed};
