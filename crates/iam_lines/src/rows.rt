// Rows as lines give them, what becomes of one, and the writes of changes.
ghost use Rattle.std.specs.Prelude.{IfOk};
ghost use Rattle.iam_model.specs.Formed.{IsFact};

use crate::words::{cut, repeated};
use iam_outer::{Row, RowWrite};
use iam_rows::{RowStop, fact_of, row_of, writes_of};
use iam_text::{List, OutOfMemory, Text, let_go};
use iam_types::{Fact, FactChange};
use std::alloc::Global;
use std::fmt::Write;

fn row(alloc: Global, text: &str) -> Result<Row, OutOfMemory> {
    let (part, rest) = cut(text, " ");
    let (name, body) = cut(rest, " ");
    Ok(Row {
        part: Text::of(alloc, part)?,
        name: Text::of(alloc, name)?,
        body: Text::of(alloc, body)?,
    })
}

/// The rows of words, `PART NAME BODY` each, with ` ; ` between them and repetitions written out.
pub fn rows(alloc: Global, words: &str) -> Result<List<Row>, OutOfMemory> {
    let text = repeated(alloc, words)?;
    let mut rows = List::new(alloc);
    for text in text.as_str().split(" ; ") {
        rows.push(row(alloc, text)?)?;
    }
    Ok(rows)
}

// The calls stand in functions of their own, which promise no more than the next one asks for.
fn fact_in(alloc: Global, row: &Row) -> Result<Fact, RowStop>
    ensures { IfOk result IsFact }
{
    fact_of(alloc, row)
}

fn row_with(alloc: Global, fact: Fact) -> Result<Row, OutOfMemory>
    requires { IsFact fact }
{
    let row = row_of(alloc, &fact);
    let_go(fact);
    row
}

// The row of the fact that a row keeps.
fn again(alloc: Global, kept: &Row) -> Result<Row, RowStop> {
    let fact = fact_in(alloc, kept)?;
    Ok(row_with(alloc, fact)?)
}

/// Tells whether a row is kept, byte for byte, or bad.
pub fn tell_fate(alloc: Global, words: &str, out: &mut String) -> Result<(), OutOfMemory> {
    let kept = row(alloc, words)?;
    let fate = match again(alloc, &kept) {
        Ok(again) => if again == kept { "kept" } else { "another" },
        Err(RowStop::BadRow) => "bad",
        Err(RowStop::OutOfMemory) => return Err(OutOfMemory),
    };
    out.push_str(fate)?;
    Ok(())
}

fn writes_with(alloc: Global, put: Fact, cut: Fact) -> Result<List<RowWrite>, OutOfMemory>
    requires put { IsFact put }
    requires cut { IsFact cut }
{
    let changes = [FactChange::Put(put), FactChange::Cut(cut)];
    let writes = writes_of(alloc, changes.as_slice());
    let_go(changes);
    writes
}

// The writes that put the fact of the first row and cut that of the second.
fn writes(alloc: Global, put: &Row, cut: &Row) -> Result<List<RowWrite>, RowStop> {
    let put = fact_in(alloc, put)?;
    match fact_in(alloc, cut) {
        Ok(cut) => Ok(writes_with(alloc, put, cut)?),
        Err(stop) => {
            let_go(put);
            Err(stop)
        }
    }
}

fn tell_write(row_write: &RowWrite, out: &mut String) -> Result<(), OutOfMemory> {
    match row_write {
        RowWrite::Put(row) => write!(
            out,
            "put {} {} {}; ",
            row.part.as_str(),
            row.name.as_str(),
            row.body.as_str()
        )?,
        RowWrite::Cut { part, name } => write!(out, "cut {} {}; ", part.as_str(), name.as_str())?,
    }
    Ok(())
}

fn tell_each(writes: &[RowWrite], out: &mut String) -> Result<(), OutOfMemory> {
    for row_write in writes {
        tell_write(row_write, out)?;
    }
    write!(out, "{} writes", writes.len())?;
    Ok(())
}

/// Tells the writes that put the fact of the first of two rows and cut that of the second.
pub fn tell_writes(alloc: Global, words: &str, out: &mut String) -> Result<(), OutOfMemory> {
    let (put, cut) = cut(words, " ; ");
    let put = row(alloc, put)?;
    let cut = row(alloc, cut)?;
    match writes(alloc, &put, &cut) {
        Ok(writes) => tell_each(writes.as_slice(), out),
        Err(RowStop::BadRow) => Ok(out.push_str("bad")?),
        Err(RowStop::OutOfMemory) => Err(OutOfMemory),
    }
}
