ghost use Rattle.std.specs.Prelude.{◌≡◌, true, List};
ghost use Rattle.cel_tree.specs.declared.tree.Expr.{Expr};
ghost use Rattle.cel_tree.specs.declared.token.Token.{Token};
ghost use Rattle.cel_grammar.specs.Position.{Position};
ghost use Rattle.cel_grammar.specs.Grammar.{IsExpr};
ghost use Rattle.cel_grammar.specs.declared.level.Sort.TheVariants.{Whole};
ghost use Rattle.cel_shown.specs.CutAgain.{IsCut};
ghost use Rattle.cel_shown.specs.Shown.{Piece, written, tokens_of, Stands, kinds_of};
ghost use Rattle.cel_shown.specs.Readable.{readable, DerivesAgain, all_pass};
ghost use Rattle.cel_shown.specs.Separate.{Separate};
ghost use Rattle.cel_shown.specs.Shorter.{NoLarger};

/// What is written is derived again, with the same tree but for spans.
pub fn written_is_derived()
    ensures { (a : Expr) → readable a ≡ true → (i j : Position) → Stands (written a) i j → DerivesAgain Whole i j a }
{}

/// The tokens of what is written don't run together: a blank stands where it must, and a minus before a number only as part of
/// its literal.
pub fn written_is_separate()
    ensures { (a : Expr) → readable a ≡ true → Separate (written a) }
{}

/// What is read from tokens whose names are names can be read again.
pub fn derived_is_readable()
    ensures { (tokens : List Token) (a : Expr) → all_pass tokens ≡ true → IsExpr tokens a → readable a ≡ true }
{}

/// What is written takes no more tokens and no more brackets than what it was read from.
pub fn written_is_no_larger()
    ensures { (tokens others : List Token) (a : Expr) → IsExpr tokens a → kinds_of others ≡ tokens_of (written a) → NoLarger others tokens }
{}

/// The bytes of pieces that do not run together are cut into the tokens of the pieces.
pub fn separate_is_cut()
    ensures { (ps : List Piece) → Separate ps → IsCut ps }
{}
