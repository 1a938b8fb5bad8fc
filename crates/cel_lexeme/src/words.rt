ghost use Rattle.std.specs.Prelude.{◌≡◌, ◌<◌, ◌≤◌, length, IfOk, IsUtf8, map, slice_index, true};
ghost use Rattle.std.specs.List.{list_any};
ghost use Rattle.std.specs.Str.{bytes_eq};
ghost use Rattle.cel_tree.specs.Spelling.{is_letter, is_reserved, reserved_words};
ghost use Rattle.cel_lexeme.specs.Lexeme.{word_lexeme};
ghost use Rattle.cel_lexeme.specs.Front.{word_at};

use crate::Lexeme;
use crate::bytes::{text, word_len};
use cel_tree::{Sign, TokenKind};
use iam_text::OutOfMemory;
use std::alloc::Global;

/// The words that are kept for other uses, and `null`.
static RESERVED_WORDS: [&str; 18] = [
    "as",
    "break",
    "const",
    "continue",
    "else",
    "for",
    "function",
    "if",
    "import",
    "let",
    "loop",
    "namespace",
    "null",
    "package",
    "return",
    "var",
    "void",
    "while",
];

fn reserved_words() -> &'static [&'static str]
    ensures { map (λ word. word.now) result.now ≡ reserved_words }
{
    &RESERVED_WORDS
}

fn is_any_of(words: &[&'static str], word: &[u8]) -> bool
    ensures { result ≡ list_any (λ one. bytes_eq word.now one.now) words.now }
{
    words.iter().any(|one| word == one.as_bytes())
}

fn is_reserved(word: &[u8]) -> bool
    ensures { result ≡ is_reserved word.now }
{
    is_any_of(reserved_words(), word)
}

fn word_lexeme(alloc: Global, word: &[u8]) -> Result<Lexeme, OutOfMemory>
    requires { IsUtf8 word.now }
    ensures { IfOk result (λ lexeme. lexeme ≡ word_lexeme word.now) }
{
    if word == b"in".as_slice() {
        Ok(Lexeme::Token(TokenKind::Sign(Sign::In)))
    } else if word == b"true".as_slice() {
        Ok(Lexeme::Token(TokenKind::Truth(true)))
    } else if word == b"false".as_slice() {
        Ok(Lexeme::Token(TokenKind::Truth(false)))
    } else if is_reserved(word) {
        Ok(Lexeme::Reserved)
    } else {
        Ok(Lexeme::Token(TokenKind::Name(text(alloc, word)?)))
    }
}

/// The word at a letter.
#[tactic(auto, unfolding(crate::specs::Front::word_at))]
pub fn word_at(alloc: Global, z: &[u8]) -> Result<(Lexeme, usize), OutOfMemory>
    requires { is_letter (slice_index z.now 0) ≡ true }
    ensures value { IfOk result (λ found. found ≡ word_at z.now) }
    ensures within { IfOk result (λ found. found.1 ≤ length z.now) }
{
    let n = word_len(z);
    Ok((word_lexeme(alloc, &z[..n])?, n))
}
