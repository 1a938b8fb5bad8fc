//! The law: what a condition shows, what is decided, which roles a change modifies, which entries are refused, and
//! what legal histories lead to.
//!
//! The definitions stand in `specs/`, over those of `iam_model`, which tell what the tables alone tell. The functions
//! here have no code: their contracts are laws of the definitions.
#![tactic(auto)]

mod laws;

pub use laws::{
    accepted_changes_are_counted, accepted_entries_fit, changes_keep_good, conditions_stand,
    firsts_are_one, grants_are_first, histories_are_counted, histories_grow, histories_keep_good,
    openings_are_good, roles_are_modified,
};
