// What a run comes to.
use crate::case::Case;
use crate::lines::Lines;
use crate::outside::{Outside, end_of, line_of, outside_of};
use crate::pieces::Pieces;
use iam_outer::{Keeper, MemoryKeeper, OutOfMemory, Row};
use iam_server::{LoadFault, RunEnd, Status};
use iam_text::let_go;
use std::alloc::Global;
use std::str;

// What each reply begins with.
const REPLY: &str = "HTTP/1.1 ";

fn fault_line(alloc: Global, fault: LoadFault) -> Result<String, OutOfMemory> {
    Ok(match fault {
        LoadFault::Empty => String::from_str(alloc, "ends Rows Empty")?,
        LoadFault::BadRow { index } => format!(in alloc; "ends Rows BadRow {index}")?,
        LoadFault::Inconsistent { rule } => format!(in alloc; "ends Rows Inconsistent {rule}")?,
    })
}

fn status_line(alloc: Global, status: Status) -> Result<String, OutOfMemory> {
    if let Status::Rows(fault) = status {
        return fault_line(alloc, fault);
    }
    let word = status.word();
    Ok(format!(in alloc; "ends {word}")?)
}

fn push_end(alloc: Global, end: &RunEnd, lines: &mut Lines) -> Result<(), OutOfMemory> {
    let line = status_line(alloc, end.status)?;
    lines.push(line.as_str())?;
    for step in end.trace.as_slice() {
        let line = format!(in alloc; "told {step:?}")?;
        lines.push(line.as_str())?;
    }
    Ok(())
}

// The text with `*` in place of what it stands for.
fn shortened(alloc: Global, text: &str, many: &str) -> Result<String, OutOfMemory> {
    if many.is_empty() {
        return Ok(String::from_str(alloc, text)?);
    }
    Ok(text.replace(alloc, many, "*")?)
}

fn push_reply(
    alloc: Global,
    many: &str,
    front: &str,
    text: &str,
    lines: &mut Lines,
) -> Result<(), OutOfMemory> {
    let text = shortened(alloc, text, many)?;
    let text = text.as_str().replace(alloc, "\r", "\\r")?;
    let text = text.as_str().replace(alloc, "\n", "\\n")?;
    let line = format!(in alloc; "wrote {front}{text}")?;
    lines.push(line.as_str())
}

// What stands before the first reply, and each reply.
fn push_text(alloc: Global, many: &str, text: &str, lines: &mut Lines) -> Result<(), OutOfMemory> {
    for (at, piece) in text.split(REPLY).enumerate() {
        if at > 0 {
            push_reply(alloc, many, REPLY, piece, lines)?;
        } else if !piece.is_empty() {
            push_reply(alloc, many, "", piece, lines)?;
        }
    }
    Ok(())
}

fn push_written(
    alloc: Global,
    case: &Case,
    written: &[u8],
    lines: &mut Lines,
) -> Result<(), OutOfMemory> {
    match str::from_utf8(written) {
        Ok(text) => push_text(alloc, case.many.as_str(), text, lines),
        Err(_) => lines.push("wrote what is no text"),
    }
}

fn push_row(alloc: Global, case: &Case, row: &Row, lines: &mut Lines) -> Result<(), OutOfMemory> {
    let (part, name) = (row.part.as_str(), row.name.as_str());
    let body = shortened(alloc, row.body.as_str(), case.many.as_str())?;
    let line = format!(in alloc; "row {part} {name} {body}")?;
    lines.push(line.as_str())
}

fn push_rows(
    alloc: Global,
    case: &Case,
    rows: &[Row],
    lines: &mut Lines,
) -> Result<(), OutOfMemory> {
    if rows == case.rows.as_slice() {
        return lines.push("rows as given");
    }
    for row in rows {
        push_row(alloc, case, row, lines)?;
    }
    Ok(())
}

fn push_kept(
    alloc: Global,
    case: &Case,
    keeper: &mut MemoryKeeper,
    lines: &mut Lines,
) -> Result<(), OutOfMemory> {
    match keeper.load() {
        Ok(rows) => push_rows(alloc, case, rows.as_slice(), lines),
        Err(_) => lines.push("no rows loaded"),
    }
}

// A run over this input, which comes as the source gives it.
fn push_over_memory(
    alloc: Global,
    case: &Case,
    input: &[u8],
    outside: &mut Outside,
    lines: &mut Lines,
) -> Result<(), OutOfMemory> {
    let mut line = line_of(alloc, case, input)?;
    let end = end_of(alloc, outside, &mut line)?;
    push_end(alloc, &end, lines)?;
    push_written(alloc, case, line.sink.taken(), lines)
}

fn push_over_pieces(
    alloc: Global,
    case: &Case,
    outside: &mut Outside,
    lines: &mut Lines,
) -> Result<(), OutOfMemory> {
    let mut line = Pieces::new(alloc, case.input.as_slice(), case.piece, case.waits)?;
    let end = end_of(alloc, outside, &mut line)?;
    push_end(alloc, &end, lines)?;
    push_written(alloc, case, line.written.as_slice(), lines)
}

fn push_over(
    alloc: Global,
    case: &Case,
    outside: &mut Outside,
    lines: &mut Lines,
) -> Result<(), OutOfMemory> {
    if case.piece > 0 {
        push_over_pieces(alloc, case, outside, lines)?;
    } else {
        push_over_memory(alloc, case, case.input.as_slice(), outside, lines)?;
    }
    push_kept(alloc, case, &mut outside.keeper, lines)
}

/// What the run comes to, and the rows that it leaves.
pub fn push_run(alloc: Global, case: &Case, lines: &mut Lines) -> Result<(), OutOfMemory> {
    let mut outside = outside_of(alloc, case)?;
    let pushed = push_over(alloc, case, &mut outside, lines);
    let_go(outside);
    pushed
}

fn push_cut(
    alloc: Global,
    case: &Case,
    input: &[u8],
    lines: &mut Lines,
) -> Result<(), OutOfMemory> {
    let mut outside = outside_of(alloc, case)?;
    let pushed = push_over_memory(alloc, case, input, &mut outside, lines);
    let_go(outside);
    pushed
}

/// What the runs over the first bytes of the input come to.
pub fn push_cuts(alloc: Global, case: &Case, lines: &mut Lines) -> Result<(), OutOfMemory> {
    let input = case.input.as_slice();
    for size in 0..input.len() {
        push_cut(alloc, case, &input[..size], lines)?;
    }
    Ok(())
}
