ghost use Rattle.std.specs.Prelude.{◌<◌, ◌^◌, length, IfOk};
ghost use Rattle.cel_tree.specs.declared.tree.Expr.{Expr};
ghost use Rattle.cel_grammar.specs.Grammar.{IsExpr};
ghost use Rattle.cel_grammar.specs.Answer.{Gives};
ghost use Rattle.cel_grammar.specs.Reader as spec;
ghost use Rattle.cel_grammar.specs.Reader.{Reads};

use crate::build::{int, method, neg, not, pick, select, two};
use crate::cursor::Cursor;
use crate::level::Level;
use crate::literal::{negative, positive};
use crate::stop::Stop;
use cel_tree::{Boxed, Expr, Sign, TokenKind, Tokens};
use iam_text::{List, Text};
use std::alloc::Global;

/// The tree of the tokens.
pub fn read(alloc: Global, tokens: Tokens) -> Result<Expr, Stop>
    requires { length tokens < 2 ^ 32 }
    // What is read is derived.
    ensures sound { IfOk result (λ a. IsExpr tokens a) }
    // What is derived is read, unless memory runs out. So it is an error only where there is no tree.
    ensures complete { (a : Expr) → IsExpr tokens a → Gives a result }
{
    let depth = tokens.len() + 1;
    let mut cursor = Cursor::new(tokens);
    match whole(alloc, &mut cursor, depth) {
        Ok(a) if cursor.left() == 0 => Ok(a.into_inner()),
        Ok(_) => Err(Stop::NotAnExpression),
        Err(stop) => Err(stop),
    }
}

#[cycle(reader)]
#[tactic(auto, unfolding(crate::specs::Reader::whole_at, crate::specs::Reader::whole_of, crate::specs::Reader::picked))]
fn whole(alloc: Global, tokens: &mut Cursor, depth: usize) -> Result<Boxed<Expr>, Stop>
    ensures { Reads (spec.whole_at depth tokens.old) result tokens.new }
{
    if depth == 0 {
        return Err(Stop::NotAnExpression);
    }
    let depth = depth - 1;
    let from = tokens.from();
    let c = chain(alloc, tokens, depth, Level::Or)?;
    if !tokens.eat(Sign::Question) {
        return Ok(c);
    }
    let a = chain(alloc, tokens, depth, Level::Or)?;
    tokens.expect(Sign::Colon)?;
    let b = whole(alloc, tokens, depth)?;
    Ok(pick(alloc, tokens.span(from), c, a, b)?)
}

#[cycle(reader)]
#[tactic(auto, unfolding(crate::specs::Reader::chained, crate::specs::Reader::chain_from))]
fn chain(
    alloc: Global,
    tokens: &mut Cursor,
    depth: usize,
    level: Level,
) -> Result<Boxed<Expr>, Stop>
    ensures { Reads (spec.chain (spec.whole_at depth) level tokens.old) result tokens.new }
{
    let from = tokens.from();
    let turns = tokens.left();
    let mut left = side(alloc, tokens, depth, level)?;
    for _turn in 0..turns {
        let Some(op) = tokens.op(level) else {
            return Ok(left);
        };
        tokens.skip();
        let right = side(alloc, tokens, depth, level)?;
        left = two(alloc, tokens.span(from), op, left, right)?;
    }
    Ok(left)
}

// What stands beside an operator of the level.
#[cycle(reader)]
fn side(alloc: Global, tokens: &mut Cursor, depth: usize, level: Level) -> Result<Boxed<Expr>, Stop>
    ensures { Reads (spec.side (spec.whole_at depth) level tokens.old) result tokens.new }
{
    match level {
        Level::Or => chain(alloc, tokens, depth, Level::And),
        Level::And => chain(alloc, tokens, depth, Level::Rel),
        Level::Rel => chain(alloc, tokens, depth, Level::Add),
        Level::Add => chain(alloc, tokens, depth, Level::Mul),
        Level::Mul => unary(alloc, tokens, depth),
    }
}

#[cycle(reader)]
#[tactic(auto, unfolding(crate::specs::Reader::unary))]
fn unary(alloc: Global, tokens: &mut Cursor, depth: usize) -> Result<Boxed<Expr>, Stop>
    ensures { Reads (spec.unary (spec.whole_at depth) tokens.old) result tokens.new }
{
    let from = tokens.from();
    let turns = tokens.left();
    if tokens.eat_negation() {
        let a = negs(alloc, tokens, depth, turns)?;
        Ok(neg(alloc, tokens.span(from), a)?)
    } else {
        nots(alloc, tokens, depth, turns)
    }
}

#[cycle(reader)]
#[tactic(auto, unfolding(crate::specs::Reader::nots))]
fn nots(alloc: Global, tokens: &mut Cursor, depth: usize, turns: usize) -> Result<Boxed<Expr>, Stop>
    ensures { Reads (spec.nots (spec.whole_at depth) turns tokens.old) result tokens.new }
{
    let from = tokens.from();
    if turns == 0 {
        return member(alloc, tokens, depth);
    }
    if !tokens.eat(Sign::Bang) {
        return member(alloc, tokens, depth);
    }
    let a = nots(alloc, tokens, depth, turns - 1)?;
    Ok(not(alloc, tokens.span(from), a)?)
}

#[cycle(reader)]
#[tactic(auto, unfolding(crate::specs::Reader::negs))]
fn negs(alloc: Global, tokens: &mut Cursor, depth: usize, turns: usize) -> Result<Boxed<Expr>, Stop>
    ensures { Reads (spec.negs (spec.whole_at depth) turns tokens.old) result tokens.new }
{
    let from = tokens.from();
    if turns == 0 {
        return member(alloc, tokens, depth);
    }
    if !tokens.eat_negation() {
        return member(alloc, tokens, depth);
    }
    let a = negs(alloc, tokens, depth, turns - 1)?;
    Ok(neg(alloc, tokens.span(from), a)?)
}

#[cycle(reader)]
#[tactic(auto, unfolding(crate::specs::Reader::member, crate::specs::Reader::member_from))]
fn member(alloc: Global, tokens: &mut Cursor, depth: usize) -> Result<Boxed<Expr>, Stop>
    ensures { Reads (spec.member (spec.whole_at depth) tokens.old) result tokens.new }
{
    let from = tokens.from();
    let turns = tokens.left();
    let mut left = primary(alloc, tokens, depth)?;
    for _turn in 0..turns {
        if !tokens.eat(Sign::Dot) {
            return Ok(left);
        }
        let name = tokens.name()?;
        left = selected(alloc, tokens, depth, from, left, name)?;
    }
    Ok(left)
}

// Behind the name.
#[cycle(reader)]
#[tactic(auto, unfolding(crate::specs::Reader::selected))]
fn selected(
    alloc: Global,
    tokens: &mut Cursor,
    depth: usize,
    from: u32,
    left: Boxed<Expr>,
    name: Text,
) -> Result<Boxed<Expr>, Stop>
    ensures { Reads (spec.selected (spec.whole_at depth) from left name tokens.old) result tokens.new }
{
    if tokens.eat(Sign::OpenParenthesis) {
        let args = args(alloc, tokens, depth)?;
        Ok(method(alloc, tokens.span(from), left, name, args)?)
    } else {
        Ok(select(alloc, tokens.span(from), left, name)?)
    }
}

#[cycle(reader)]
#[tactic(auto, unfolding(crate::specs::Reader::primary, crate::specs::Reader::called, crate::specs::Reader::grouped, crate::specs::Reader::listed))]
fn primary(alloc: Global, tokens: &mut Cursor, depth: usize) -> Result<Boxed<Expr>, Stop>
    ensures { Reads (spec.primary (spec.whole_at depth) tokens.old) result tokens.new }
{
    let from = tokens.from();
    let Some(kind) = tokens.take() else {
        return Err(Stop::NotAnExpression);
    };
    match kind {
        TokenKind::Name(name) => {
            if tokens.eat(Sign::OpenParenthesis) {
                let args = args(alloc, tokens, depth)?;
                Ok(Boxed::new(alloc, Expr::Call(tokens.span(from), name, args))?)
            } else {
                Ok(Boxed::new(alloc, Expr::Name(tokens.span(from), name))?)
            }
        }
        TokenKind::Sign(Sign::OpenParenthesis) => {
            let a = whole(alloc, tokens, depth)?;
            tokens.expect(Sign::CloseParenthesis)?;
            Ok(a)
        }
        TokenKind::Sign(Sign::OpenBracket) => {
            let es = row(alloc, tokens, depth)?;
            Ok(Boxed::new(alloc, Expr::Many(tokens.span(from), es))?)
        }
        TokenKind::Sign(Sign::Minus) => negative(alloc, tokens, from),
        TokenKind::Sign(_) => Err(Stop::NotAnExpression),
        TokenKind::Truth(b) => Ok(Boxed::new(alloc, Expr::Bool(tokens.span(from), b))?),
        TokenKind::Number(number) => {
            let Some(number) = positive(number) else {
                return Err(Stop::NotAnExpression);
            };
            Ok(int(alloc, tokens.span(from), number)?)
        }
        TokenKind::Str(text) => Ok(Boxed::new(alloc, Expr::Str(tokens.span(from), text))?),
    }
}

// Behind the opening parenthesis, with the closing one.
#[cycle(reader)]
#[tactic(auto, unfolding(crate::specs::Reader::args, crate::specs::Reader::args_from))]
fn args(alloc: Global, tokens: &mut Cursor, depth: usize) -> Result<List<Expr>, Stop>
    ensures { Reads (spec.args (spec.whole_at depth) tokens.old) result tokens.new }
{
    let mut found = List::new(alloc);
    let turns = tokens.left();
    if tokens.eat(Sign::CloseParenthesis) {
        return Ok(found);
    }
    for _turn in 0..turns {
        let a = whole(alloc, tokens, depth)?;
        found.push(a.into_inner())?;
        if !tokens.eat(Sign::Comma) {
            tokens.expect(Sign::CloseParenthesis)?;
            return Ok(found);
        }
    }
    Err(Stop::NotAnExpression)
}

// Behind the opening bracket, with the closing one.
#[cycle(reader)]
#[tactic(auto, unfolding(crate::specs::Reader::row, crate::specs::Reader::row_from))]
fn row(alloc: Global, tokens: &mut Cursor, depth: usize) -> Result<List<Expr>, Stop>
    ensures { Reads (spec.row (spec.whole_at depth) tokens.old) result tokens.new }
{
    let mut found = List::new(alloc);
    let turns = tokens.left();
    if tokens.eat(Sign::CloseBracket) {
        return Ok(found);
    }
    for _turn in 0..turns {
        let a = whole(alloc, tokens, depth)?;
        found.push(a.into_inner())?;
        if !tokens.eat(Sign::Comma) {
            tokens.expect(Sign::CloseBracket)?;
            return Ok(found);
        }
        if tokens.eat(Sign::CloseBracket) {
            return Ok(found);
        }
    }
    Err(Stop::NotAnExpression)
}
