//! Kinds of condition expressions, and what an expression means in a context.
//!
//! `check` tells whether a tree is a condition in a place. Its contract is the relation `HasKind`: the answer is
//! `Typed` exactly where the tree has the kind Bool there, and else the fault of the first node that has no kind,
//! parts before the whole and left before right. The relation `Means` says what a tree comes to in a context, errors
//! being outcomes: at most one thing, and for a condition a truth or a fault.
#![tactic(auto)]

mod arguments;
mod checking;
mod form;
mod kind;
mod laws;
mod place;
mod rows;
mod unit;

pub use arguments::{first_text, offset_minutes, second_text, two_digits, zone_of};
pub use cel_value::{
    Context, EvalFault, Facts, KeyAnswer, KeyFact, Outcome, Value, ValueFact, Verdict,
};
pub use checking::{TypeFault, TypeKind, Typed, check};
pub use form::{Attribute, Form, TagFunction, TimePart, attribute_of, form_of, is_whole};
pub use kind::{Base, Kind, Place};
pub use laws::{
    at_most_one_fault, at_most_one_kind, at_most_one_outcome, conditions_come_to_truths,
    conditions_have_no_fault, faults_have_no_kind, kinds_are_computed, kinds_have_heads,
    outcomes_are_of_the_kind,
};
pub use unit::TimeUnit;
