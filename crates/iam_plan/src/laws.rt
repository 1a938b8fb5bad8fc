// Laws of the definition of a plan. The functions have no code.
ghost use Rattle.std.specs.Prelude.{◌≡◌, ℕ, List, IfSome};
ghost use Rattle.std.specs.declared.option.Option.{Option as Opt};
ghost use Rattle.iam_types.specs.declared.tables.Opening.{Opening};
ghost use Rattle.iam_model.specs.Opening.{IsOpening};
ghost use Rattle.iam_plan.specs.Plan.{IsPlan};
ghost use Rattle.iam_plan.specs.declared.plan.Plan.{Plan};
ghost use Rattle.iam_plan.specs.declared.plan.Plan.TheVariants.{Apply};

/// The opening that words say is well formed.
pub fn openings_are_formed()
    ensures { (words : List (List ℕ)) (db : Opt (List ℕ)) (opening : Opt Opening) → IsPlan words (Apply db opening) → IfSome opening IsOpening }
{}

/// Words say one plan.
pub fn plans_are_told()
    ensures { (words : List (List ℕ)) (one other : Plan) → IsPlan words one → IsPlan words other → one ≡ other }
{}
