// What each directive does.
use crate::case::Case;
use crate::lines::Lines;
use crate::plans::plan_line;
use crate::requests::{parted, push_no_text, push_request, push_rows, push_text, set_many};
use crate::shown::{push_cuts, push_run};
use iam_outer::OutOfMemory;
use std::alloc::Global;

// The directives that a number stands behind.
fn set_number(case: &mut Case, kind: &str, number: usize) -> bool {
    match kind {
        "room" => case.room = number,
        "failing-read" => case.failing_read = number,
        "failing-clock" => case.failing_clock = number,
        "failing-keeper" => case.failing_keeper = number,
        "piece" => case.piece = number,
        "waiting-piece" => {
            case.piece = number;
            case.waits = true;
        }
        _ => return false,
    }
    true
}

fn is_number_set(case: &mut Case, kind: &str, words: &str) -> Result<bool, OutOfMemory> {
    let Ok(number) = words.parse::<usize>() else {
        return Ok(false);
    };
    if kind == "no-text" {
        push_no_text(case, number)?;
        return Ok(true);
    }
    Ok(set_number(case, kind, number))
}

// What a run is over. Whether it is that.
fn is_set(alloc: Global, case: &mut Case, kind: &str, words: &str) -> Result<bool, OutOfMemory> {
    match kind {
        "run" => *case = Case::new(alloc, words)?,
        "many" => set_many(alloc, case, words)?,
        "row" => push_rows(alloc, case, words)?,
        "ask" => push_request(alloc, case, "", words)?,
        "from" => {
            let (revision, words) = parted(words);
            push_request(alloc, case, revision, words)?;
        }
        "text" => push_text(alloc, case, words)?,
        _ => return is_number_set(case, kind, words),
    }
    Ok(true)
}

/// The lines that a directive comes to; a `?` where it is none.
pub fn answer(
    alloc: Global,
    case: &mut Case,
    kind: &str,
    words: &str,
) -> Result<String, OutOfMemory> {
    let mut lines = Lines::new(alloc);
    match kind {
        "go" => push_run(alloc, case, &mut lines)?,
        "cuts" => push_cuts(alloc, case, &mut lines)?,
        "words" | "no-words" => plan_line(alloc, kind, words, &mut lines)?,
        _ => {
            if !is_set(alloc, case, kind, words)? {
                lines.push("?")?;
            }
        }
    }
    lines.into_text()
}
