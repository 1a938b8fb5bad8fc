ghost use Rattle.std.specs.Prelude.{◌≡◌, ℕ, List, IfOk};
ghost use Rattle.cel_tree.specs.declared.tree.Expr.{Expr};
ghost use Rattle.cel_shown.specs.Shown.{written};
ghost use Rattle.cel_shown.specs.Spelled.{bytes_of};
ghost use Rattle.cel_syntax.specs.CelText.{CelText};
ghost use Rattle.cel_syntax.specs.Back.{ReadsBack};

use cel_tree::Expr;
use iam_text::{OutOfMemory, Text};
use std::alloc::Global;

/// The text of a tree, with as few brackets as the grammar needs, one blank round each binary operator, `?` and `:`, and strings
/// between `"`.
pub fn print(alloc: Global, expr: &Expr) -> Result<Text, OutOfMemory>
    ensures text { IfOk result (λ printed. printed ≡ bytes_of (written expr.now)) }
    // What was read and is printed is read again, unless it is too long, as the same tree but for spans.
    ensures reads_back { (text : List ℕ) → CelText text expr.now → IfOk result (ReadsBack expr.now) }
{
    cel_print::print(alloc, expr)
}

/// The tree of a text, printed, is read again.
pub fn printed_reads_back()
    ensures { (text : List ℕ) (e : Expr) → CelText text e → ReadsBack e (bytes_of (written e)) }
{}
