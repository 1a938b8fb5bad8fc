//! What the words of the command line ask for.
//!
//! The words are the word of a command and pairs of an option and its value. `specs/Plan.antt` says which words are a
//! plan, and which one. Words of other forms are refused by hand, and the options of the others are then read by `clap`,
//! which can refuse these for memory alone.
#![tactic(auto)]

mod access;
mod command;
mod laws;
mod opening;
mod options;
mod pairs;
mod plan;

pub use laws::{openings_are_formed, plans_are_told};
pub use plan::{Plan, PlanStop, plan_of};
