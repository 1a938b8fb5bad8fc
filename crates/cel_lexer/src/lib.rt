//! Cuts the text of a condition expression into tokens.
//!
//! `tokens` gives the cut into longest tokens, with blanks and comments passed over, or the first fault: a bad token or a reserved
//! word, at its offset. `Cut` says what a cut is, rule by rule, `cut_of`
//! computes it (`cut_is_computed`), and a text has one at most (`one_cut`).
#![tactic(auto)]

mod blanks;
mod cutting;
mod seen;
mod stop;

pub use cutting::{cut_is_computed, one_cut, tokens};
pub use seen::Seen;
pub use stop::{CutFault, Stop};
