ghost use Rattle.std.specs.Prelude.{◌≡◌, ◌↔◌, ℕ, List, slice_index, drop, IfOk, IsUtf8, Some, None, true};
ghost use Rattle.cel_tree.specs.declared.token.TokenKind.{TokenKind};
ghost use Rattle.cel_tree.specs.Spelling.{IsProper};
ghost use Rattle.cel_lexeme.specs.Lexeme.{IsLongest, HasNone, is_quote, is_raw_mark};
ghost use Rattle.cel_lexeme.specs.Front as front;
ghost use Rattle.cel_lexeme.specs.declared.lexeme.Lexeme.{Lexeme};
ghost use Rattle.cel_lexeme.specs.declared.lexeme.Lexeme.TheVariants.{Token};

use crate::Lexeme;
use crate::bytes::{byte, is_letter, is_quote, is_raw_mark};
use crate::numbers::number_at;
use crate::strings::string_at;
use crate::words::word_at;
use cel_tree::{Sign, TokenKind};
use iam_text::OutOfMemory;
use std::alloc::Global;

fn sign_two(b: u8, c: u8) -> Option<Sign>
    ensures { result ≡ front.sign_two b c }
{
    match b {
        b'|' if c == b'|' => Some(Sign::OrOr),
        b'&' if c == b'&' => Some(Sign::AndAnd),
        b'<' if c == b'=' => Some(Sign::LessEqual),
        b'>' if c == b'=' => Some(Sign::GreaterEqual),
        b'=' if c == b'=' => Some(Sign::EqualEqual),
        b'!' if c == b'=' => Some(Sign::NotEqual),
        _ => None,
    }
}

fn sign_one(b: u8) -> Option<Sign>
    ensures { result ≡ front.sign_one b }
{
    match b {
        b'?' => Some(Sign::Question),
        b':' => Some(Sign::Colon),
        b'<' => Some(Sign::Less),
        b'>' => Some(Sign::Greater),
        b'+' => Some(Sign::Plus),
        b'-' => Some(Sign::Minus),
        b'*' => Some(Sign::Star),
        b'/' => Some(Sign::Slash),
        b'%' => Some(Sign::Percent),
        b'!' => Some(Sign::Bang),
        b'.' => Some(Sign::Dot),
        b',' => Some(Sign::Comma),
        b'(' => Some(Sign::OpenParenthesis),
        b')' => Some(Sign::CloseParenthesis),
        b'[' => Some(Sign::OpenBracket),
        b']' => Some(Sign::CloseBracket),
        _ => None,
    }
}

/// The sign of two bytes, or else of one.
#[tactic(auto, unfolding(crate::specs::Front::sign_at))]
fn sign_at(b: u8, c: u8) -> Option<(Lexeme, usize)>
    ensures { result ≡ front.sign_at b c }
{
    match sign_two(b, c) {
        Some(sign) => Some((Lexeme::Token(TokenKind::Sign(sign)), 2)),
        None => {
            let sign = sign_one(b)?;
            Some((Lexeme::Token(TokenKind::Sign(sign)), 1))
        }
    }
}

/// At a mark of a raw string and a quote: a raw string, or the mark as a word.
#[tactic(auto, unfolding(crate::specs::Front::raw_at))]
fn raw_at(alloc: Global, z: &[u8]) -> Result<(Lexeme, usize), OutOfMemory>
    requires mark { is_raw_mark (slice_index z.now 0) ≡ true }
    requires quote { is_quote (slice_index z.now 1) ≡ true }
    requires utf8 { IsUtf8 z.now }
    ensures { IfOk result (λ found. Some found ≡ front.raw_at z.now) }
{
    match string_at(alloc, true, &z[1..])? {
        Some((lexeme, len)) => Ok((lexeme, len + 1)),
        None => word_at(alloc, z),
    }
}

/// The longest lexeme at the front, and its length in bytes.
#[tactic(auto, unfolding(crate::specs::Front::lexeme_at))]
pub fn lexeme_at(alloc: Global, z: &[u8]) -> Result<Option<(Lexeme, usize)>, OutOfMemory>
    requires { IsUtf8 z.now }
    ensures { IfOk result (λ found. found ≡ front.lexeme_at z.now) }
{
    let b = byte(z, 0);
    if is_raw_mark(b) && is_quote(byte(z, 1)) {
        Ok(Some(raw_at(alloc, z)?))
    } else if is_letter(b) {
        Ok(Some(word_at(alloc, z)?))
    } else if b.is_ascii_digit() {
        Ok(Some(number_at(z)))
    } else if is_quote(b) {
        string_at(alloc, false, z)
    } else {
        Ok(sign_at(b, byte(z, 1)))
    }
}

/// `lexeme_at` finds the longest lexeme wherever there is one. So there is one longest at most, what is behind it in a text is a
/// text, and a token is proper.
pub fn longest()
    ensures found { (z : List ℕ) → (t : Lexeme × ℕ) → (front.lexeme_at z ≡ Some t) ↔ IsLongest z t.0 t.1 }
    ensures none { (z : List ℕ) → (front.lexeme_at z ≡ None) ↔ HasNone z }
    ensures rest { (z : List ℕ) → (l : Lexeme) → (n : ℕ) → IsUtf8 z → IsLongest z l n → IsUtf8 (drop n z) }
    ensures proper { (z : List ℕ) → (k : TokenKind) → (n : ℕ) → IsUtf8 z → IsLongest z (Token k) n → IsProper k }
{}
