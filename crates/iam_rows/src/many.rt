// The rows of many facts.
ghost use Rattle.std.specs.Prelude.{ℕ, All, IfOk, IsErrOf, map};
ghost use Rattle.iam_model.specs.Formed.{IsFact, IsChange};
ghost use Rattle.iam_rows.specs.Kept.{IsWrite, AreWrites, AreFactsOf, IsFirstBadRow};

use crate::fact::fact_of;
use crate::row::row_of;
use crate::stop::{LoadStop, RowStop};
use iam_outer::{Row, RowWrite};
use iam_text::{List, OutOfMemory};
use iam_types::{Fact, FactChange};
use std::alloc::Global;

fn cut_of(alloc: Global, fact: &Fact) -> Result<RowWrite, OutOfMemory>
    requires { IsFact fact.now }
    ensures { IfOk result (IsWrite (FactChange.Cut fact.now)) }
{
    let row = row_of(alloc, fact)?;
    Ok(RowWrite::Cut {
        part: row.part,
        name: row.name,
    })
}

fn write_of(alloc: Global, change: &FactChange) -> Result<RowWrite, OutOfMemory>
    requires { IsChange change.now }
    ensures { IfOk result (IsWrite change.now) }
{
    match change {
        FactChange::Put(fact) => Ok(RowWrite::Put(row_of(alloc, fact)?)),
        FactChange::Cut(fact) => cut_of(alloc, fact),
    }
}

/// The writes that keep changes of facts, one for each.
pub fn writes_of(alloc: Global, changes: &[FactChange]) -> Result<List<RowWrite>, OutOfMemory>
    requires { All IsChange changes.now }
    ensures { IfOk result (AreWrites changes.now) }
{
    let mut writes = List::new(alloc);
    for change in changes {
        writes.push(write_of(alloc, change)?)?;
    }
    Ok(writes)
}

/// The writes that put facts, one for each.
pub fn puts_of(alloc: Global, facts: &[Fact]) -> Result<List<RowWrite>, OutOfMemory>
    requires { All IsFact facts.now }
    ensures { IfOk result (AreWrites (map (λ fact. FactChange.Put fact) facts.now)) }
{
    let mut writes = List::new(alloc);
    for fact in facts {
        writes.push(RowWrite::Put(row_of(alloc, fact)?))?;
    }
    Ok(writes)
}

/// The facts of rows, each in its row's place.
pub fn facts_of_rows(alloc: Global, rows: &[Row]) -> Result<List<Fact>, LoadStop>
    ensures facts { IfOk result (AreFactsOf rows.now) }
    ensures formed { IfOk result (All IsFact) }
    ensures bad { (index : ℕ) → IsErrOf result (LoadStop.BadRow index) → IsFirstBadRow rows.now index }
{
    let mut facts = List::new(alloc);
    for row in rows {
        match fact_of(alloc, row) {
            Ok(fact) => facts.push(fact)?,
            Err(RowStop::BadRow) => {
                return Err(LoadStop::BadRow {
                    index: facts.len() as u64,
                });
            }
            Err(RowStop::OutOfMemory) => return Err(LoadStop::OutOfMemory),
        }
    }
    Ok(facts)
}
