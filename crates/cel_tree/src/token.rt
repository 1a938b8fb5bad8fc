//! Tokens: what a text is cut into.
//!
//! A reserved word, `null` and a bad token are faults of the cut, and no tokens.

use crate::Span;
use iam_text::Text;

/// A token that is always written alike: an operator, a bracket, a comma, or the word `in`.
#[derive(Clone, Copy, PartialEq, Eq)]
pub enum Sign {
    Question,
    Colon,
    OrOr,
    AndAnd,
    Less,
    LessEqual,
    Greater,
    GreaterEqual,
    EqualEqual,
    NotEqual,
    In,
    Plus,
    Minus,
    Star,
    Slash,
    Percent,
    Bang,
    Dot,
    Comma,
    OpenParenthesis,
    CloseParenthesis,
    OpenBracket,
    CloseBracket,
}

/// What a token is.
#[derive(Drop)]
pub enum TokenKind {
    Sign(Sign),
    /// `true` or `false`.
    Truth(bool),
    /// A number without a sign, at most 2^63. It is 2^63 only directly after a unary `-`.
    Number(u64),
    /// A string, decoded.
    Str(Text),
    /// An identifier.
    Name(Text),
}

/// A token, and where it stands.
#[derive(Drop)]
pub struct Token {
    pub span: Span,
    pub kind: TokenKind,
}
