ghost use Rattle.std.specs.Prelude.{◌≡◌, ◌∷◌, ◌++◌, IfOk, OnOk, map, false};
ghost use Rattle.cel_tree.specs.declared.token.Sign.TheVariants.{OpenParenthesis, CloseParenthesis};
ghost use Rattle.cel_tree.specs.declared.token.TokenKind.TheVariants.{Name};
ghost use Rattle.cel_grammar.specs.declared.level.Sort.TheVariants.{Whole};
ghost use Rattle.cel_shown.specs.Shown.{Word, signed, shown, written, number, separated, closed_by, spaced};
ghost use Rattle.cel_shown.specs.Spelled.{bytes_of};

use crate::printer::Printer;
use crate::sort::{is_within, level_of, operand, own_sort, sign_of};
use cel_grammar::{Level, Sort};
use cel_tree::{Expr, Sign};
use iam_text::{OutOfMemory, Text};
use std::alloc::Global;

/// The text of a tree.
pub fn print(alloc: Global, expr: &Expr) -> Result<Text, OutOfMemory>
    ensures { IfOk result (λ text. text ≡ bytes_of (written expr.now)) }
{
    let mut out = Printer::new(alloc);
    write(&mut out, expr, Sort::Whole, false)?;
    Ok(out.into_text())
}

fn integer(out: &mut Printer, n: i64, after_minus: bool) -> Result<(), OutOfMemory>
    ensures { OnOk result (out.new ≡ out.old ++ bytes_of (number n after_minus)) }
{
    if !after_minus {
        return out.integer(n);
    }
    if n < 0 {
        return out.integer(n);
    }
    if n == 0 {
        return out.put("-0");
    }
    out.put("(")?;
    out.integer(n)?;
    out.put(")")
}

#[cycle(write)]
fn write(out: &mut Printer, expr: &Expr, place: Sort, after_minus: bool) -> Result<(), OutOfMemory>
    ensures { OnOk result (out.new ≡ out.old ++ bytes_of (shown expr.now place after_minus)) }
{
    if is_within(own_sort(expr), place) {
        return bare(out, expr, after_minus);
    }
    out.sign(Sign::OpenParenthesis)?;
    bare(out, expr, false)?;
    out.sign(Sign::CloseParenthesis)
}

#[cycle(write)]
fn bare(out: &mut Printer, expr: &Expr, after_minus: bool) -> Result<(), OutOfMemory>
    ensures { OnOk result (out.new ≡ out.old ++ bytes_of (shown expr.now Whole after_minus)) }
{
    match expr {
        Expr::Bool(_, true) => out.put("true"),
        Expr::Bool(_, false) => out.put("false"),
        Expr::Int(_, n) => integer(out, *n, after_minus),
        Expr::Str(_, text) => out.quoted(text.as_str()),
        Expr::Name(_, name) => out.put(name.as_str()),
        Expr::Select(_, operand, field) => {
            write(out, operand.get(), Sort::Member, after_minus)?;
            out.sign(Sign::Dot)?;
            out.put(field.as_str())
        }
        Expr::Call(_, name, arguments) => call(out, name.as_str(), arguments.as_slice()),
        Expr::Method(_, operand, name, arguments) => {
            write(out, operand.get(), Sort::Member, after_minus)?;
            out.sign(Sign::Dot)?;
            call(out, name.as_str(), arguments.as_slice())
        }
        Expr::Many(_, items) => {
            out.sign(Sign::OpenBracket)?;
            list(out, items.as_slice())?;
            out.sign(Sign::CloseBracket)
        }
        Expr::Not(_, operand) => prefixed(out, Sign::Bang, operand.get(), Sort::Nots, false),
        Expr::Neg(_, operand) => prefixed(out, Sign::Minus, operand.get(), Sort::Negs, true),
        Expr::Two(_, op, left, right) => {
            let level = level_of(*op);
            write(out, left.get(), Sort::Binary(level), false)?;
            appended(out, sign_of(*op), right.get(), operand(level))
        }
        Expr::Pick(_, condition, if_true, if_false) => {
            write(out, condition.get(), Sort::Binary(Level::Or), false)?;
            appended(out, Sign::Question, if_true.get(), Sort::Binary(Level::Or))?;
            appended(out, Sign::Colon, if_false.get(), Sort::Whole)
        }
    }
}

// A sign and, directly behind it, an operand.
#[cycle(write)]
fn prefixed(
    out: &mut Printer,
    sign: Sign,
    operand: &Expr,
    place: Sort,
    after_minus: bool,
) -> Result<(), OutOfMemory>
    ensures { OnOk result (out.new ≡ out.old ++ bytes_of (signed sign ∷ shown operand.now place after_minus)) }
{
    out.sign(sign)?;
    write(out, operand, place, after_minus)
}

// A sign with a blank on both sides, and an operand behind it.
#[cycle(write)]
fn appended(out: &mut Printer, sign: Sign, operand: &Expr, place: Sort) -> Result<(), OutOfMemory>
    ensures { OnOk result (out.new ≡ out.old ++ bytes_of (spaced sign (shown operand.now place false))) }
{
    out.spaced(sign)?;
    write(out, operand, place, false)
}

// `name(arguments)`
#[cycle(write)]
fn call(out: &mut Printer, name: &str, arguments: &[Expr]) -> Result<(), OutOfMemory>
    ensures { OnOk result (out.new ≡ out.old
        ++ bytes_of (Word (Name name.now) ∷ signed OpenParenthesis
        ∷ closed_by CloseParenthesis (map shown arguments.now))) }
{
    out.put(name)?;
    out.sign(Sign::OpenParenthesis)?;
    list(out, arguments)?;
    out.sign(Sign::CloseParenthesis)
}

// With a comma and a blank between.
#[cycle(write)]
fn list(out: &mut Printer, exprs: &[Expr]) -> Result<(), OutOfMemory>
    ensures { OnOk result (out.new ≡ out.old ++ bytes_of (separated (map shown exprs.now))) }
{
    let [first, rest @ ..] = exprs else {
        return Ok(());
    };
    write(out, first, Sort::Whole, false)?;
    for expr in rest {
        out.sign(Sign::Comma)?;
        out.put(" ")?;
        write(out, expr, Sort::Whole, false)?;
    }
    Ok(())
}
