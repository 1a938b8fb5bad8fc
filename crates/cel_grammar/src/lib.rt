//! The grammar of expressions over tokens, and its reader.
//!
//! The grammar is an inductive family between positions in a list of tokens, `Derives`. Tokens have at most one tree
//! (`one_tree`), which `tree_in` computes (`tree_is_computed`), and `read` gives exactly that tree: it refuses only tokens that have
//! none.
#![tactic(auto)]

mod build;
mod cursor;
mod law;
mod level;
mod literal;
mod reader;
mod stop;

pub use law::{one_tree, tree_is_computed};
pub use level::{Level, Sort};
pub use reader::read;
pub use stop::Stop;
