ghost use Rattle.std.specs.Prelude.{◌≡◌, ◌↔◌, Some, IsErrOf, IfOk, OnOk, OnErr};
ghost use Rattle.iam_text.specs.Put.{placed};
ghost use Rattle.iam_outer.specs.Rows.{row_order, is_at, cut_row, after_write, after_writes, KeeperCause};
ghost use Rattle.iam_outer.specs.Memory.{FailsNext, failed, fresh, passed};

use super::calls::Calls;
use crate::{Keeper, KeeperStop, List, OutOfMemory, Row, RowWrite, Text};
use iam_text::put_row;
use std::alloc::Global;
use std::marker::Model;

/// Rows in memory.
#[derive(Drop)]
pub struct MemoryKeeper {
    rows: List<Row>,
    calls: Calls,
    alloc: Global,
}

impl Model for MemoryKeeper {
    ghost use Rattle.iam_outer.specs.Memory.{Keeping};

    ghost Value = { Keeping };

    ghost view = { λ k. record { rows = k.rows; failing = k.calls } };
}

impl MemoryKeeper {
    /// The rows may come in any order. Of several with one part and name the first counts.
    pub fn new(alloc: Global, rows: List<Row>, failing: List<u64>) -> MemoryKeeper
        ensures { result ≡ record { rows = rows; failing = fresh failing } }
    {
        MemoryKeeper {
            rows,
            calls: Calls::new(failing),
            alloc,
        }
    }
}

fn copy(row: &Row) -> Result<Row, OutOfMemory>
    ensures { IfOk result (λ copy. copy ≡ row.now) }
{
    Ok(row.clone()?)
}

// Copies of the rows, each in its place.
fn placed_rows(alloc: Global, rows: &[Row]) -> Result<List<Row>, OutOfMemory>
    ensures { IfOk result (λ copies. copies ≡ placed row_order rows.now) }
{
    let mut placed = List::new(alloc);
    let mut at = rows.len();
    while at > 0 {
        at -= 1;
        put_row(&mut placed, copy(&rows[at])?)?;
    }
    Ok(placed)
}

fn is_at(row: &Row, part: &Text, name: &Text) -> bool
    ensures { result ≡ is_at part.now name.now row.now }
{
    row.part == *part && row.name == *name
}

// Takes out the row of that part and name.
fn cut_row(rows: &mut List<Row>, part: &Text, name: &Text)
    ensures { rows.new ≡ cut_row part.now name.now rows.old }
{
    rows.retain(|row| !is_at(row, part, name));
}

fn make(rows: &mut List<Row>, write: &RowWrite) -> Result<(), OutOfMemory>
    ensures { OnOk result (rows.new ≡ after_write write.now rows.old) }
{
    match write {
        RowWrite::Put(row) => put_row(rows, copy(row)?),
        RowWrite::Cut { part, name } => {
            cut_row(rows, part, name);
            Ok(())
        }
    }
}

fn make_all(rows: &mut List<Row>, writes: &[RowWrite]) -> Result<(), OutOfMemory>
    ensures { OnOk result (rows.new ≡ after_writes writes.now rows.old) }
{
    for write in writes {
        make(rows, write)?;
    }
    Ok(())
}

impl Keeper for MemoryKeeper {
    ghost use Rattle.iam_text.proofs.InOrder.{placed-IsInOrder};
    ghost use Rattle.iam_outer.specs.Rows.{row_order_total};

    ghost rows = { λ k. Some (placed row_order k.rows) };

    ghost keeper_faults = { λ k. k.failing.faults };

    ghost in_order = { λ k. placed-IsInOrder row_order row_order_total k.rows };

    ghost same_as_itself = { λ k. tt };

    ghost same_onward = { λ a b c ab bc. tt };

    fn load(&mut self) -> Result<List<Row>, KeeperStop>
        ensures rows { IfOk result (λ loaded. loaded ≡ placed row_order self.old.rows) }
        ensures kept { Some (placed row_order self.new.rows) ≡ Some (placed row_order self.old.rows) }
        ensures cause { KeeperCause self.old.failing.faults self.new.failing.faults result }
        ensures fails { IsErrOf result KeeperStop.Failed ↔ FailsNext self.old.failing }
        ensures at_fault { IsErrOf result KeeperStop.Failed → self.new ≡ record self.old { failing = failed self.old.failing } }
        ensures at_no_memory { IsErrOf result KeeperStop.OutOfMemory → self.new ≡ record self.old { failing = passed self.old.failing } }
        ensures at_ok { OnOk result (self.new ≡ record self.old { failing = passed self.old.failing }) }
        ensures same { Unit {0} }
    {
        if self.calls.fails(false) {
            return Err(KeeperStop::Failed);
        }
        Ok(placed_rows(self.alloc, self.rows.as_slice())?)
    }

    fn commit(&mut self, writes: &[RowWrite]) -> Result<(), KeeperStop>
        ensures ok { OnOk result (Some (placed row_order self.new.rows) ≡ Some (after_writes writes.now (placed row_order self.old.rows))) }
        ensures err { OnErr result (Some (placed row_order self.new.rows) ≡ Some (placed row_order self.old.rows)) }
        ensures cause { KeeperCause self.old.failing.faults self.new.failing.faults result }
        ensures fails { IsErrOf result KeeperStop.Failed ↔ FailsNext self.old.failing }
        ensures at_fault { IsErrOf result KeeperStop.Failed → self.new ≡ record self.old { failing = failed self.old.failing } }
        ensures at_no_memory { IsErrOf result KeeperStop.OutOfMemory → self.new ≡ record self.old { failing = passed self.old.failing } }
        ensures at_ok { OnOk result (self.new.failing ≡ passed self.old.failing) }
        ensures same { Unit {0} }
    {
        if self.calls.fails(false) {
            return Err(KeeperStop::Failed);
        }
        let mut rows = placed_rows(self.alloc, self.rows.as_slice())?;
        make_all(&mut rows, writes)?;
        self.rows = rows;
        Ok(())
    }
}
