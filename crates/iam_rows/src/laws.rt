ghost use Rattle.std.specs.Prelude.{◌≡◌, List, All};
ghost use Rattle.iam_text.specs.Put.{IsInOrder};
ghost use Rattle.iam_types.specs.declared.fact.Fact.{Fact};
ghost use Rattle.iam_types.specs.declared.fact.FactChange.{FactChange};
ghost use Rattle.iam_types.specs.declared.tables.Tables.{Tables};
ghost use Rattle.iam_model.specs.Consistent.{Consistent};
ghost use Rattle.iam_model.specs.Facts.{fact_order, facts_of, with_changes};
ghost use Rattle.iam_model.specs.Formed.{IsFact};
ghost use Rattle.iam_outer.specs.Rows.{row_order, after_writes};
ghost use Rattle.iam_outer.specs.declared.keeper.Row.{Row};
ghost use Rattle.iam_outer.specs.declared.keeper.RowWrite.{RowWrite};
ghost use Rattle.iam_rows.specs.Kept.{AreRows, AreWrites, AreFactsOf};

use iam_model::facts_tell_tables;

/// The writes of changes lead from the rows of the facts to the rows of the facts that the changes lead to.
pub fn rows_follow_changes()
    ensures { (facts : List Fact) (rows : List Row) (changes : List FactChange) (writes : List RowWrite) → AreRows facts rows → AreWrites changes writes → AreRows (with_changes facts changes) (after_writes writes rows) }
{}

/// Well formed facts with equal rows are equal.
pub fn rows_tell_facts()
    ensures { (a b : List Fact) (rows : List Row) → All IsFact a → All IsFact b → AreRows a rows → AreRows b rows → a ≡ b }
{}

/// Consistent tables with equal rows are equal.
pub fn rows_tell_tables()
    ensures { (a b : Tables) (rows : List Row) → Consistent a → Consistent b → AreRows (facts_of a) rows → AreRows (facts_of b) rows → a ≡ b }
{
    rows_tell_facts();
    facts_tell_tables();
}

/// The facts that are read of rows have these rows.
pub fn read_facts_are_kept()
    ensures { (rows : List Row) (facts : List Fact) → AreFactsOf rows facts → AreRows facts rows }
{}

/// The facts of rows in order are in order.
pub fn facts_stand_as_rows()
    ensures { (facts : List Fact) (rows : List Row) → AreRows facts rows → IsInOrder row_order rows → IsInOrder fact_order facts }
{}
