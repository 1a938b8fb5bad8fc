ghost use Rattle.std.specs.Prelude.{◌≡◌, ◌↔◌, ℕ, List, Ok, Err};
ghost use Rattle.cel_tree.specs.declared.tree.Expr.{Expr};
ghost use Rattle.cel_syntax.specs.declared.fault.SyntaxFault.{SyntaxFault};
ghost use Rattle.cel_syntax.specs.CelText.{CelText, Faults, Answers, Gives};
ghost use Rattle.cel_syntax.specs.TreeOf.{tree_of, Reads};

use crate::fault::{ReadStop, SyntaxKind, fault};
use crate::limits::{MAX_BYTES, MAX_DEPTH, MAX_TOKENS, depth};
use cel_tree::Expr;
use std::alloc::Global;

/// The tree of a text, or its first fault.
pub fn read(alloc: Global, text: &str) -> Result<Expr, ReadStop>
    ensures exact { Reads (tree_of text.now) result }
    ensures answer { Answers text.now result }
    // A text with a tree is never refused, unless memory runs out.
    ensures complete { (a : Expr) → CelText text.now a → Gives a result }
{
    answered(alloc, text)
}

fn answered(alloc: Global, text: &str) -> Result<Expr, ReadStop>
    ensures { Answers text.now result }
{
    if text.len() > MAX_BYTES {
        return Err(fault(0, SyntaxKind::TooLong));
    }
    let tokens = cel_lexer::tokens(alloc, text)?;
    if tokens.len() > MAX_TOKENS {
        return Err(fault(0, SyntaxKind::TooManyTokens));
    }
    if depth(tokens.as_slice()) > MAX_DEPTH {
        return Err(fault(0, SyntaxKind::TooDeep));
    }
    let tree = cel_grammar::read(alloc, tokens)?;
    Ok(tree)
}

/// `tree_of` computes the tree of each text that has one, and the first fault of each other.
pub fn tree_is_computed()
    ensures tree { (text : List ℕ) (a : Expr) → (tree_of text ≡ Ok a) ↔ CelText text a }
    ensures fault { (text : List ℕ) (f : SyntaxFault) → (tree_of text ≡ Err f) ↔ Faults text f }
{}

/// A text has at most one tree, at most one fault, and not both.
pub fn one_answer()
    ensures tree { (text : List ℕ) (a b : Expr) → CelText text a → CelText text b → a ≡ b }
    ensures fault { (text : List ℕ) (f g : SyntaxFault) → Faults text f → Faults text g → f ≡ g }
    ensures not_both { (text : List ℕ) (a : Expr) (f : SyntaxFault) → CelText text a → Faults text f → ⊥ }
{}
