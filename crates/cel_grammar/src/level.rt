ghost use Rattle.std.specs.Prelude.{◌≡◌};
ghost use Rattle.cel_grammar.specs.Grammar as grammar;

use cel_tree::{Op, Sign};

/// The levels of the binary operators, the loosest first.
#[derive(Clone, Copy)]
pub enum Level {
    Or,
    And,
    Rel,
    Add,
    Mul,
}

/// What a part of an expression is derived from, the widest first.
#[derive(Clone, Copy)]
pub enum Sort {
    Whole,
    Binary(Level),
    /// What stands beside an operator of the tightest level.
    Unary,
    /// A member behind any number of `!`.
    Nots,
    /// A member behind any number of `-`.
    Negs,
    Member,
    Primary,
}

/// The operator that a sign stands for at a level.
pub fn op_of(level: Level, sign: Sign) -> Option<Op>
    ensures { result ≡ grammar.op_of level sign }
{
    match level {
        Level::Or => match sign {
            Sign::OrOr => Some(Op::Or),
            _ => None,
        },
        Level::And => match sign {
            Sign::AndAnd => Some(Op::And),
            _ => None,
        },
        Level::Rel => match sign {
            Sign::Less => Some(Op::Lt),
            Sign::LessEqual => Some(Op::Le),
            Sign::Greater => Some(Op::Gt),
            Sign::GreaterEqual => Some(Op::Ge),
            Sign::EqualEqual => Some(Op::Eq),
            Sign::NotEqual => Some(Op::Ne),
            Sign::In => Some(Op::In),
            _ => None,
        },
        Level::Add => match sign {
            Sign::Plus => Some(Op::Add),
            Sign::Minus => Some(Op::Sub),
            _ => None,
        },
        Level::Mul => match sign {
            Sign::Star => Some(Op::Mul),
            Sign::Slash => Some(Op::Div),
            Sign::Percent => Some(Op::Rem),
            _ => None,
        },
    }
}
