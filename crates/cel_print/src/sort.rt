// What a tree is derived from, and where that may stand without brackets.

ghost use Rattle.std.specs.Prelude.{◌≡◌};
ghost use Rattle.cel_grammar.specs.Grammar as grammar;
ghost use Rattle.cel_shown.specs.Shown as spec;
ghost use Rattle.cel_print.specs.Own.{own};

use cel_grammar::{Level, Sort};
use cel_tree::{Expr, Op, Sign};

pub fn level_of(op: Op) -> Level
    ensures { result ≡ spec.level_of op }
{
    match op {
        Op::Or => Level::Or,
        Op::And => Level::And,
        Op::Lt | Op::Le | Op::Gt | Op::Ge | Op::Eq | Op::Ne | Op::In => Level::Rel,
        Op::Add | Op::Sub => Level::Add,
        Op::Mul | Op::Div | Op::Rem => Level::Mul,
    }
}

pub fn sign_of(op: Op) -> Sign
    ensures { result ≡ spec.sign_of op }
{
    match op {
        Op::Or => Sign::OrOr,
        Op::And => Sign::AndAnd,
        Op::Lt => Sign::Less,
        Op::Le => Sign::LessEqual,
        Op::Gt => Sign::Greater,
        Op::Ge => Sign::GreaterEqual,
        Op::Eq => Sign::EqualEqual,
        Op::Ne => Sign::NotEqual,
        Op::In => Sign::In,
        Op::Add => Sign::Plus,
        Op::Sub => Sign::Minus,
        Op::Mul => Sign::Star,
        Op::Div => Sign::Slash,
        Op::Rem => Sign::Percent,
    }
}

pub fn operand(level: Level) -> Sort
    ensures { result ≡ grammar.operand level }
{
    match level {
        Level::Or => Sort::Binary(Level::And),
        Level::And => Sort::Binary(Level::Rel),
        Level::Rel => Sort::Binary(Level::Add),
        Level::Add => Sort::Binary(Level::Mul),
        Level::Mul => Sort::Unary,
    }
}

fn width(sort: Sort) -> u32
    ensures { result ≡ spec.width sort }
{
    match sort {
        Sort::Whole => 9,
        Sort::Binary(Level::Or) => 8,
        Sort::Binary(Level::And) => 7,
        Sort::Binary(Level::Rel) => 6,
        Sort::Binary(Level::Add) => 5,
        Sort::Binary(Level::Mul) => 4,
        Sort::Unary => 3,
        Sort::Nots | Sort::Negs => 2,
        Sort::Member => 1,
        Sort::Primary => 0,
    }
}

/// What is derived from the first is derived from the second.
pub fn is_within(own: Sort, place: Sort) -> bool
    ensures { result ≡ spec.within own place }
{
    match (own, place) {
        (Sort::Nots, Sort::Negs) | (Sort::Negs, Sort::Nots) => false,
        _ => width(own) <= width(place),
    }
}

/// The narrowest sort that a tree is derived from.
pub fn own_sort(expr: &Expr) -> Sort
    ensures { result ≡ own expr.now }
{
    match expr {
        Expr::Bool(..)
        | Expr::Int(..)
        | Expr::Str(..)
        | Expr::Name(..)
        | Expr::Call(..)
        | Expr::Many(..) => Sort::Primary,
        Expr::Select(..) | Expr::Method(..) => Sort::Member,
        Expr::Not(..) => Sort::Nots,
        Expr::Neg(..) => Sort::Negs,
        Expr::Two(_, op, ..) => Sort::Binary(level_of(*op)),
        Expr::Pick(..) => Sort::Whole,
    }
}
