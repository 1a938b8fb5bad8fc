// The numbers of literals.

ghost use Rattle.std.specs.Prelude.{◌≡◌};
ghost use Rattle.cel_grammar.specs.Reader as spec;
ghost use Rattle.cel_grammar.specs.Reader.{Reads};

use crate::build::int;
use crate::cursor::Cursor;
use crate::stop::Stop;
use cel_tree::{Boxed, Expr, TokenKind};
use std::alloc::Global;

// The greatest number behind a minus.
const LARGEST: u64 = 9_223_372_036_854_775_808;

/// The number as it stands.
pub fn positive(number: u64) -> Option<i64>
    ensures { result ≡ spec.positive number }
{
    if number < LARGEST {
        Some(number as i64)
    } else {
        None
    }
}

/// The number with a minus before it.
pub fn negated(number: u64) -> Option<i64>
    ensures { result ≡ spec.negated number }
{
    if number < LARGEST {
        Some(-(number as i64))
    } else if number == LARGEST {
        Some(i64::MIN)
    } else {
        None
    }
}

/// The literal, behind its minus.
#[tactic(auto, unfolding(crate::specs::Reader::negative))]
pub fn negative(alloc: Global, tokens: &mut Cursor, from: u32) -> Result<Boxed<Expr>, Stop>
    ensures { Reads (spec.negative from tokens.old) result tokens.new }
{
    let Some(TokenKind::Number(number)) = tokens.take() else {
        return Err(Stop::NotAnExpression);
    };
    let Some(number) = negated(number) else {
        return Err(Stop::NotAnExpression);
    };
    Ok(int(alloc, tokens.span(from), number)?)
}
