ghost use Rattle.std.specs.Prelude.{◌≡◌, ◌<◌, ◌-◌, ◌^◌, ◌↔◌, ℕ, List, Result, length, IsUtf8, false, true, Ok, Err, IfOk};
ghost use Rattle.std.specs.List.{All};
ghost use Rattle.cel_tree.specs.Spelling.{IsProper};
ghost use Rattle.cel_tree.specs.declared.token.Token.{Token};
ghost use Rattle.cel_lexer.specs.Cut as spec;
ghost use Rattle.cel_lexer.specs.declared.seen.Seen.{Seen};
ghost use Rattle.cel_lexer.specs.Tokens.{cut_of};
ghost use Rattle.cel_lexer.specs.declared.stop.CutFault.{CutFault};

use crate::blanks::past;
use crate::seen::{after, may_stand};
use crate::{CutFault, Seen, Stop};
use cel_lexeme::{Lexeme, lexeme_at};
use cel_tree::{Span, Token, TokenKind, Tokens};
use std::alloc::Global;

/// The token at the front, which is no blank and no comment, at this offset.
fn token_at(alloc: Global, seen: Seen, here: &[u8], from: u32) -> Result<(TokenKind, usize), Stop>
    requires utf8 { IsUtf8 here.now }
    requires some { 0 < length here.now }
    ensures { spec.Reads seen here.now from result }
{
    let Some((lexeme, len)) = lexeme_at(alloc, here)? else {
        return Err(Stop::Fault(CutFault::BadToken(from)));
    };
    match lexeme {
        Lexeme::Token(kind) => {
            if !may_stand(seen, &kind) {
                return Err(Stop::Fault(CutFault::BadToken(from)));
            }
            Ok((kind, len))
        }
        Lexeme::Reserved => Err(Stop::Fault(CutFault::ReservedWord(from))),
        Lexeme::Bad => Err(Stop::Fault(CutFault::BadToken(from))),
    }
}

/// The tokens of a text below 2^32 bytes, or the first fault.
pub fn tokens(alloc: Global, text: &str) -> Result<Tokens, Stop>
    requires { length text.now < 2 ^ 32 }
    ensures cut { spec.Cuts text.now result }
    ensures proper { IfOk result (λ tokens. All (λ token. IsProper token.kind) tokens) }
{
    let bytes = text.as_bytes();
    let mut found = Tokens::new(alloc);
    let mut seen = Seen::Opening;
    let mut rest = bytes;
    'cut: loop {
        let here = past(rest);
        if here.is_empty() {
            return Ok(found);
        }
        let from = (bytes.len() - here.len()) as u32;
        let (kind, len) = token_at(alloc, seen, here, from)?;
        seen = after(seen, &kind);
        rest = &here[len..];
        let to = (bytes.len() - rest.len()) as u32;
        let span = Span { from, to };
        found.push(Token { span, kind })?;
    }
}

/// A text has one cut at most.
pub fn one_cut()
    ensures { (n : ℕ) → (seen : Seen) → (z : List ℕ) → (one other : Result (List Token) CutFault)
        → spec.Cut n seen z one → spec.Cut n seen z other → one ≡ other }
{}

/// `cut_of` computes the cut of each text.
pub fn cut_is_computed()
    ensures { (text : List ℕ) → (cut : Result (List Token) CutFault) → (cut_of text ≡ cut) ↔ spec.CutInto text cut }
{}
