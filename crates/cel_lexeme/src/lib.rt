//! Lexemes: the longest one at the front of a text.
//!
//! A lexeme is what the longest-match rule chooses among: a token, a reserved word, or a bad token, as a number that is too
//! large or a string with an escape that is no Unicode scalar value. `lexeme_at` gives the longest lexeme at the front, or none
//! where nothing there is one; `longest` says so in the words of `Spells`, and that it is the only one.
#![tactic(auto)]

mod bytes;
mod escapes;
mod front;
mod lexeme;
mod numbers;
mod strings;
mod words;

pub use front::{lexeme_at, longest};
pub use lexeme::Lexeme;
