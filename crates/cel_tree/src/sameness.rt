ghost use Rattle.std.specs.Prelude.{◌≡◌, ◌↔◌, IsTrue};

use crate::{Expr, Op, Span};
use iam_text::Text;

fn same_span(left: Span, right: Span) -> bool
    ensures { IsTrue result ↔ (left ≡ right) }
{
    left == right
}

fn same_op(left: Op, right: Op) -> bool
    ensures { IsTrue result ↔ (left ≡ right) }
{
    left == right
}

fn same_text(left: &Text, right: &Text) -> bool
    ensures { IsTrue result ↔ (left.now ≡ right.now) }
{
    left.as_str() == right.as_str()
}

/// Whether two trees are equal, spans too.
#[cycle(same)]
pub fn same(left: &Expr, right: &Expr) -> bool
    ensures { IsTrue result ↔ (left.now ≡ right.now) }
{
    match (left, right) {
        (Expr::Bool(a, x), Expr::Bool(b, y)) => same_span(*a, *b) && *x == *y,
        (Expr::Int(a, x), Expr::Int(b, y)) => same_span(*a, *b) && *x == *y,
        (Expr::Str(a, x), Expr::Str(b, y)) => same_span(*a, *b) && same_text(x, y),
        (Expr::Name(a, x), Expr::Name(b, y)) => same_span(*a, *b) && same_text(x, y),
        (Expr::Select(a, x, f), Expr::Select(b, y, g)) => {
            same_span(*a, *b) && same_text(f, g) && same(x.get(), y.get())
        }
        (Expr::Call(a, f, x), Expr::Call(b, g, y)) => {
            same_span(*a, *b) && same_text(f, g) && all_same(x.as_slice(), y.as_slice())
        }
        (Expr::Method(a, x, f, xs), Expr::Method(b, y, g, ys)) => {
            same_span(*a, *b)
                && same_text(f, g)
                && same(x.get(), y.get())
                && all_same(xs.as_slice(), ys.as_slice())
        }
        (Expr::Many(a, x), Expr::Many(b, y)) => {
            same_span(*a, *b) && all_same(x.as_slice(), y.as_slice())
        }
        (Expr::Not(a, x), Expr::Not(b, y)) => same_span(*a, *b) && same(x.get(), y.get()),
        (Expr::Neg(a, x), Expr::Neg(b, y)) => same_span(*a, *b) && same(x.get(), y.get()),
        (Expr::Two(a, f, x, v), Expr::Two(b, g, y, w)) => {
            same_span(*a, *b) && same_op(*f, *g) && same(x.get(), y.get()) && same(v.get(), w.get())
        }
        (Expr::Pick(a, x, p, s), Expr::Pick(b, y, q, t)) => {
            same_span(*a, *b)
                && same(x.get(), y.get())
                && same(p.get(), q.get())
                && same(s.get(), t.get())
        }
        _ => false,
    }
}

#[cycle(same)]
fn all_same(left: &[Expr], right: &[Expr]) -> bool
    ensures { IsTrue result ↔ (left.now ≡ right.now) }
{
    if left.len() != right.len() {
        return false;
    }
    for (i, a) in left.iter().enumerate() {
        if !same(a, &right[i]) {
            return false;
        }
    }
    true
}
