//! The answer to a question of access, in one line of words.
//!
//! It is a function of the tables of the index, the caller, the moment, the name of the node and the text of the
//! permission: `access_line` of `specs/Access.antt`.
#![tactic(auto)]

mod access;
mod words;

pub use access::ask;
