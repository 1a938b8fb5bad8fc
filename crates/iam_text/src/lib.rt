//! Owned texts and lists, rows in order, moments, and the refusal of memory: what every layer is made of.
//!
//! Contracts see a text as its bytes and a list as its elements in order, so structs and enums that hold
//! them can derive their comparisons and copies. `proofs/Exact` and `proofs/InOrder` are lemmas for the
//! layers above: a derived `==` decides `≡`, and rows in order stay so.
#![tactic(auto)]

mod list;
mod memory;
mod moment;
mod ordered;
mod text;

pub use list::List;
pub use memory::{OutOfMemory, let_go};
pub use moment::Moment;
pub use ordered::{Ordered, put_row};
pub use text::Text;
