// One node over what it holds.

ghost use Rattle.std.specs.Prelude.{◌≡◌, IfOk};
ghost use Rattle.cel_grammar.specs.Grammar.{method_tree};

use cel_tree::{Boxed, Expr, Op, Span};
use iam_text::{List, Text};
use std::alloc::{AllocError, Global};

pub fn int(alloc: Global, span: Span, number: i64) -> Result<Boxed<Expr>, AllocError>
    ensures { IfOk result (λ e. e ≡ Expr.Int span number) }
{
    Boxed::new(alloc, Expr::Int(span, number))
}

pub fn not(alloc: Global, span: Span, a: Boxed<Expr>) -> Result<Boxed<Expr>, AllocError>
    ensures { IfOk result (λ e. e ≡ Expr.Not span a) }
{
    Boxed::new(alloc, Expr::Not(span, a))
}

pub fn neg(alloc: Global, span: Span, a: Boxed<Expr>) -> Result<Boxed<Expr>, AllocError>
    ensures { IfOk result (λ e. e ≡ Expr.Neg span a) }
{
    Boxed::new(alloc, Expr::Neg(span, a))
}

pub fn two(
    alloc: Global,
    span: Span,
    op: Op,
    a: Boxed<Expr>,
    b: Boxed<Expr>,
) -> Result<Boxed<Expr>, AllocError>
    ensures { IfOk result (λ e. e ≡ Expr.Two span op a b) }
{
    Boxed::new(alloc, Expr::Two(span, op, a, b))
}

pub fn pick(
    alloc: Global,
    span: Span,
    c: Boxed<Expr>,
    a: Boxed<Expr>,
    b: Boxed<Expr>,
) -> Result<Boxed<Expr>, AllocError>
    ensures { IfOk result (λ e. e ≡ Expr.Pick span c a b) }
{
    Boxed::new(alloc, Expr::Pick(span, c, a, b))
}

pub fn select(
    alloc: Global,
    span: Span,
    a: Boxed<Expr>,
    name: Text,
) -> Result<Boxed<Expr>, AllocError>
    ensures { IfOk result (λ e. e ≡ Expr.Select span a name) }
{
    Boxed::new(alloc, Expr::Select(span, a, name))
}

pub fn method(
    alloc: Global,
    span: Span,
    a: Boxed<Expr>,
    name: Text,
    args: List<Expr>,
) -> Result<Boxed<Expr>, AllocError>
    ensures { IfOk result (λ e. e ≡ method_tree span a name args) }
{
    Boxed::new(alloc, Expr::Method(span, a, name, args))
}
