//! What the tables alone tell: the catalogue, the opening, who is held by a member, what a role grants, the facts
//! of the tables, what holds of them at every moment, and what each command means.
//!
//! The definitions stand in `specs/`. The functions here have no code: their contracts are laws of the definitions.
//! What conditions, decisions and admission are is defined above, in `iam_law`.
#![tactic(auto)]

mod laws;

pub use laws::{
    accepted_rules_fit, apart_facts_are_counted, broken_facts_give_none, changes_are_countable,
    changes_are_counted, changes_are_formed, changes_keep_consistent, changes_lead,
    children_are_listed, consistent_tables_are_given, facts_are_few, facts_are_put,
    facts_tell_tables, given_tables_are_consistent, named_nodes_exist, named_rows_exist,
    new_nodes_are_counted, nodes_are_formed, nothing_else_is_given, nothing_else_is_kept,
    openings_are_consistent, ordered_facts_are_placed, organization_is_named, paths_are_one,
    paths_stand, policies_are_countable, policies_are_formed, tables_have_placed_facts,
    ways_are_short,
};
