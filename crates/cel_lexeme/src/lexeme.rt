use cel_tree::TokenKind;

/// What the bytes at the front of a text are.
#[derive(Drop)]
pub enum Lexeme {
    Token(TokenKind),
    /// A reserved word, or `null`.
    Reserved,
    /// A number above 2^63, or a string with an escape that is no Unicode scalar value.
    Bad,
}
