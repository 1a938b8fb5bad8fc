ghost use Rattle.std.specs.Prelude.{◌≡◌, ℕ, ◌+◌, ◌++◌, ◌∷◌, [], Bool, List, None, length};
ghost use Rattle.std.specs.declared.option.Option.{Option};
ghost use Rattle.std.specs.List.{find};
ghost use Rattle.iam_types.specs.declared.allow.Binding.{Binding};
ghost use Rattle.iam_types.specs.declared.command.Entry.{Entry};
ghost use Rattle.iam_types.specs.declared.tables.Opening.{Opening};
ghost use Rattle.iam_types.specs.declared.tables.Tables.{Tables};
ghost use Rattle.iam_model.specs.Commands.{IsEntry, after, fits};
ghost use Rattle.iam_model.specs.Consistent.{Consistent};
ghost use Rattle.iam_model.specs.Opening.{IsOpening, opening_tables};
ghost use Rattle.iam_law.specs.Admit.{admission};
ghost use Rattle.iam_law.specs.Decide.{in_turn};
ghost use Rattle.iam_law.specs.First.{IsFirstOf};
ghost use Rattle.iam_law.specs.Good.{ConditionsStand, Good};
ghost use Rattle.iam_law.specs.History.{state, Legal};
ghost use Rattle.iam_law.specs.Modified.{AreModified, modified_roles};

use iam_model::{
    accepted_rules_fit, changes_are_counted, changes_keep_consistent, nothing_else_is_kept,
    openings_are_consistent, policies_are_formed,
};

/// The first binding in turn that passes is the first by the role's text in bytes and then by place.
pub fn grants_are_first()
    ensures { (passes : Binding → Bool) (bindings : List Binding) → IsFirstOf passes bindings (find (λ turn. passes turn.1) (in_turn bindings)) }
{}

/// There is one first.
pub fn firsts_are_one()
    ensures { (passes : Binding → Bool) (bindings : List Binding) (a b : Option (ℕ × Binding)) → IsFirstOf passes bindings a → IsFirstOf passes bindings b → a ≡ b }
{}

/// The modified roles are exactly those whose sets of grants differ.
pub fn roles_are_modified()
    ensures { (old new : List Binding) → AreModified old new (modified_roles old new) }
{}

/// Until conditions can be stored, consistent tables have none that may not stand there.
pub fn conditions_stand()
    ensures { (tables : Tables) → Consistent tables → ConditionsStand tables }
{
    policies_are_formed();
    nothing_else_is_kept();
}

/// The opening's tables keep all rules.
pub fn openings_are_good()
    ensures { (opening : Opening) → IsOpening opening → Good (opening_tables opening) }
{
    openings_are_consistent();
    conditions_stand();
}

/// What is accepted fits the tables.
pub fn accepted_entries_fit()
    ensures { (tables : Tables) (entry : Entry) → admission tables entry ≡ None → fits tables entry ≡ None }
{
    accepted_rules_fit();
}

/// An accepted change keeps the tables good.
pub fn changes_keep_good()
    ensures { (tables : Tables) (entry : Entry) → Good tables → IsEntry entry → admission tables entry ≡ None → Good (after tables entry) }
{
    accepted_entries_fit();
    changes_keep_consistent();
    conditions_stand();
}

/// An accepted change is one more.
pub fn accepted_changes_are_counted()
    ensures { (tables : Tables) (entry : Entry) → Good tables → IsEntry entry → admission tables entry ≡ None → (after tables entry).org.changes ≡ tables.org.changes + 1 }
{
    accepted_entries_fit();
    changes_are_counted();
}

/// The tables after a legal history are good.
pub fn histories_keep_good()
    ensures { (tables : Tables) (entries : List Entry) → Legal tables entries → Good (state tables entries) }
{
    changes_keep_good();
}

/// An entry that is accepted after a legal history makes it longer by one.
pub fn histories_grow()
    ensures legal { (tables : Tables) (entries : List Entry) (entry : Entry) → Legal tables entries → IsEntry entry → admission (state tables entries) entry ≡ None → Legal tables (entries ++ entry ∷ []) }
    ensures grown { (tables : Tables) (entries : List Entry) (entry : Entry) → state tables (entries ++ entry ∷ []) ≡ after (state tables entries) entry }
{}

/// The number of a state is that of the tables at first and the length of the history.
pub fn histories_are_counted()
    ensures { (tables : Tables) (entries : List Entry) → Legal tables entries → (state tables entries).org.changes ≡ tables.org.changes + length entries }
{
    changes_keep_good();
    accepted_changes_are_counted();
}
