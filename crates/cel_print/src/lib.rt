//! Printing of trees: `print` gives the bytes of the pieces that the tree is written with.
#![tactic(auto)]

mod printer;
mod sort;
mod trees;

pub use trees::print;
