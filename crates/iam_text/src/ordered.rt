ghost use Rattle.std.specs.Prelude.{◌≡◌, OnOk, OnErr};
ghost use Rattle.std.specs.declared.cmp.Ordering.{Ordering};
ghost use Rattle.std.specs.Cmp.{IsTotalOrder};
ghost use Rattle.iam_text.specs.Put.{put};
ghost use Rattle.iam_text.specs.Places.{PutsAt};

use crate::{List, OutOfMemory};
use std::cmp::Ordering;

/// A row that has a place among others of its kind, as a row of a table by its key.
pub trait Ordered {
    /// Where one row stands beside another.
    ghost order: { Self → Self → Ordering };

    fn order(&self, other: &Self) -> Ordering
        ensures { result ≡ order self.now other.now };

    ghost total: { IsTotalOrder order };
}

/// Puts a row in its place, over the one that has the same place. Where memory is refused the row is dropped.
pub fn put_row<T: Ordered + Drop>(rows: &mut List<T>, row: T) -> Result<(), OutOfMemory>
    ensures ok { OnOk result (rows.new ≡ put T.order row rows.old) }
    ensures err { OnErr result (rows.new ≡ rows.old) }
{
    match place_of(rows.as_slice(), &row) {
        Place::At(at) => {
            rows.set(at, row);
            Ok(())
        }
        Place::Before(at) => rows.insert(at, row),
    }
}

/// Where a row belongs: over the row there, or before it.
enum Place {
    At(usize),
    Before(usize),
}

fn place_of<T: Ordered>(rows: &[T], row: &T) -> Place
    ensures { PutsAt T.order row.now rows.now result }
{
    for (at, other) in rows.iter().enumerate() {
        match row.order(other) {
            Ordering::Less => return Place::Before(at),
            Ordering::Equal => return Place::At(at),
            Ordering::Greater => {}
        }
    }
    Place::Before(rows.len())
}
