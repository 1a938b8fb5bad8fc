ghost use Rattle.std.specs.Prelude.{◌≡◌};
ghost use Rattle.cel_lexer.specs.Cut as spec;

use cel_tree::{Sign, TokenKind};

/// What stands before a place in a text. It decides what a `-` is there, and whether 2^63 may stand there.
#[derive(Clone, Copy)]
pub enum Seen {
    /// The start, or a token behind which an operand begins: a `-` here is unary.
    Opening,
    /// A unary `-`: a `-` here is unary, too.
    UnaryMinus,
    /// An operand's last token: a `-` here is binary.
    Operand,
}

const LARGEST: u64 = 1 << 63;

/// What stands before the place behind one more token.
pub fn after(seen: Seen, kind: &TokenKind) -> Seen
    ensures { result ≡ spec.after seen kind.now }
{
    match kind {
        TokenKind::Sign(Sign::Minus) => after_minus(seen),
        TokenKind::Sign(Sign::CloseParenthesis) => Seen::Operand,
        TokenKind::Sign(Sign::CloseBracket) => Seen::Operand,
        TokenKind::Sign(_) => Seen::Opening,
        _ => Seen::Operand,
    }
}

fn after_minus(seen: Seen) -> Seen
    ensures { result ≡ spec.after_minus seen }
{
    match seen {
        Seen::Operand => Seen::Opening,
        _ => Seen::UnaryMinus,
    }
}

/// Whether the token may stand here: all may, but 2^63 only directly behind a unary `-`.
pub fn may_stand(seen: Seen, kind: &TokenKind) -> bool
    ensures { result ≡ spec.may_stand seen kind.now }
{
    match kind {
        TokenKind::Number(n) => is_within(seen, *n),
        _ => true,
    }
}

fn is_within(seen: Seen, n: u64) -> bool
    ensures { result ≡ spec.is_within seen n }
{
    match seen {
        Seen::UnaryMinus => n <= LARGEST,
        _ => n < LARGEST,
    }
}
