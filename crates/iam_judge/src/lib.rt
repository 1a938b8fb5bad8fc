//! The decision: whether a caller may use a permission on a node.
//!
//! An `Index` is seen as its tables, which are good, and `decide` gives the decision that the definitions of
//! `iam_law` give in them. It scans the tables.
#![tactic(auto)]

mod asking;
mod decide;
mod decided;
mod holds;
mod index;
mod resource;
mod roles;

pub use asking::{decision_on, forbidden};
pub use decided::unless_allowed;
pub use iam_steps::Steps;
pub use index::{BuildStop, Index};
pub use resource::resource_facts_of;
