//! Condition expressions: their texts and their trees.
//!
//! `read` gives the one tree of a text, or the one fault that it has: `CelText` says which text has which tree, `Faults` which has
//! which fault, and `tree_of` computes either (`tree_is_computed`). `print` writes a tree with as few brackets as the grammar needs,
//! so that it reads back: what was read and is printed is read again, as the same tree but for spans.
#![tactic(auto)]

mod fault;
mod limits;
mod printing;
mod texts;

pub use cel_tree::{Boxed, Expr, Op, Span};
pub use fault::{ReadStop, SyntaxFault, SyntaxKind};
pub use printing::{print, printed_reads_back};
pub use texts::{one_answer, read, tree_is_computed};
