ghost use Rattle.std.specs.Prelude.{◌≡◌, List};
ghost use Rattle.std.specs.declared.option.Option.{Option};
ghost use Rattle.iam_types.specs.declared.tables.Opening.{Opening};
ghost use Rattle.iam_types.specs.declared.tables.Tables.{Tables};
ghost use Rattle.iam_model.specs.Facts.{facts_of};
ghost use Rattle.iam_law.specs.Good.{Good};
ghost use Rattle.iam_outer.specs.declared.keeper.Row.{Row};
ghost use Rattle.iam_rows.specs.Kept.{AreRows};
ghost use Rattle.iam_keeping.specs.Opened.{IsOpenedFrom};

use iam_model::{consistent_tables_are_given, ordered_facts_are_placed};
use iam_rows::rows_tell_tables;

/// What is opened from the rows of good tables is these tables, whatever the opening: a keeper that is opened again
/// goes on from the state that it was left in.
pub fn rows_open_once()
    ensures { (opening : Option Opening) (rows : List Row) (kept opened : Tables) → Good kept → AreRows (facts_of kept) rows → IsOpenedFrom opening rows opened → opened ≡ kept }
{
    consistent_tables_are_given();
    ordered_facts_are_placed();
    rows_tell_tables();
}
