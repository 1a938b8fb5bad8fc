use iam_text::{List, Text};
use sqlite_items::Boxed;

/// The bytes of a text from `from` up to `to`, which is the offset behind the last one.
#[derive(Clone, Copy, PartialEq, Eq)]
pub struct Span {
    pub from: u32,
    pub to: u32,
}

/// A binary operator.
#[derive(Clone, Copy, PartialEq, Eq)]
pub enum Op {
    Or,
    And,
    Lt,
    Le,
    Gt,
    Ge,
    Eq,
    Ne,
    In,
    Add,
    Sub,
    Mul,
    Div,
    Rem,
}

/// An expression. Each node has the span of its own derivation, without brackets round it.
#[derive(Drop)]
pub enum Expr {
    Bool(Span, bool),
    Int(Span, i64),
    /// A string literal, decoded.
    Str(Span, Text),
    Name(Span, Text),
    /// `operand.field`
    Select(Span, Boxed<Expr>, Text),
    /// `name(arguments)`
    Call(Span, Text, List<Expr>),
    /// `operand.name(arguments)`
    Method(Span, Boxed<Expr>, Text, List<Expr>),
    /// `[items]`
    Many(Span, List<Expr>),
    Not(Span, Boxed<Expr>),
    Neg(Span, Boxed<Expr>),
    Two(Span, Op, Boxed<Expr>, Boxed<Expr>),
    /// `condition ? if_true : if_false`
    Pick(Span, Boxed<Expr>, Boxed<Expr>, Boxed<Expr>),
}

impl Expr {
    ghost use Rattle.std.specs.Prelude.{◌≡◌};
    ghost use Rattle.cel_tree.specs.Tree.{span_of};

    /// Where a node stands in its text.
    pub fn span(&self) -> Span
        ensures { result ≡ span_of self.now }
    {
        match self {
            Expr::Bool(span, _)
            | Expr::Int(span, _)
            | Expr::Str(span, _)
            | Expr::Name(span, _)
            | Expr::Select(span, _, _)
            | Expr::Call(span, _, _)
            | Expr::Method(span, _, _, _)
            | Expr::Many(span, _)
            | Expr::Not(span, _)
            | Expr::Neg(span, _)
            | Expr::Two(span, _, _, _)
            | Expr::Pick(span, _, _, _) => *span,
        }
    }
}
