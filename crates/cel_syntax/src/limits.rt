ghost use Rattle.std.specs.Prelude.{◌≡◌, ◌<◌, ◌^◌, length};
ghost use Rattle.cel_grammar.specs.Depth as spec;

use cel_tree::{Sign, Token, TokenKind};

/// The most bytes of a text.
pub const MAX_BYTES: usize = 2048;

/// The most tokens of a text.
pub const MAX_TOKENS: usize = 512;

/// The most brackets that are open at once.
pub const MAX_DEPTH: usize = 24;

fn opened(count: usize, kind: &TokenKind) -> usize
    requires { count < 2 ^ 33 }
    ensures { result ≡ spec.opened count kind.now }
{
    match kind {
        TokenKind::Sign(Sign::OpenParenthesis | Sign::OpenBracket) => count + 1,
        TokenKind::Sign(Sign::CloseParenthesis | Sign::CloseBracket) => count.saturating_sub(1),
        _ => count,
    }
}

/// The most brackets that are open at once.
#[tactic(auto, using(crate::proofs::Whole::at_least))]
pub fn depth(tokens: &[Token]) -> usize
    requires { length tokens.now < 2 ^ 32 }
    ensures { result ≡ spec.deepest 0 tokens.now }
{
    let mut count = 0;
    let mut most = 0;
    for token in tokens {
        count = opened(count, &token.kind);
        most = count.max(most);
    }
    most
}
