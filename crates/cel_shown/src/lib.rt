//! How a tree is written: as few brackets as the grammar needs, one blank round each binary operator, `?` and `:`, a comma
//! with one blank.
//!
//! The bytes of what is written are cut into the tokens that were written, and what is written is derived again, with the same
//! tree but for spans. All of it is laws without code.
#![tactic(auto)]

mod laws;

pub use laws::{
    derived_is_readable, separate_is_cut, written_is_derived, written_is_no_larger,
    written_is_separate,
};
