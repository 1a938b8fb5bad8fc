//! Trees of condition expressions, and the tokens that they are read from.
//!
//! Contracts see a tree as plain data: a child in a `Boxed` is the child itself, a list of children the list.
//! So a clause may say that a tree is `Expr.Two span op a b`.
#![tactic(auto)]

mod sameness;
mod token;
mod tokens;
mod tree;

pub use sameness::same;
pub use sqlite_items::Boxed;
pub use token::{Sign, Token, TokenKind};
pub use tokens::Tokens;
pub use tree::{Expr, Op, Span};
