ghost use Rattle.std.specs.Prelude.{◌≡◌, ◌↔◌, List, Some};
ghost use Rattle.cel_tree.specs.declared.tree.Expr.{Expr};
ghost use Rattle.cel_tree.specs.declared.token.Token.{Token};
ghost use Rattle.cel_grammar.specs.Grammar.{IsExpr};
ghost use Rattle.cel_grammar.specs.Reader.{tree_in};

/// Tokens have at most one tree.
pub fn one_tree()
    ensures { (tokens : List Token) (a b : Expr) → IsExpr tokens a → IsExpr tokens b → a ≡ b }
{}

/// `tree_in` computes the tree of tokens, where they have one.
pub fn tree_is_computed()
    ensures { (tokens : List Token) (a : Expr) → (tree_in tokens ≡ Some a) ↔ IsExpr tokens a }
{}
