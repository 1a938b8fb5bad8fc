// What a line of the first part asks.
use crate::outcomes::principal_line;
use crate::tokens::count_line;
use crate::trees::{same_line, tree_line};
use cel_answers::{Task, line_answer, stated_context};
use cel_types::Place;
use cel_value::{Context, Facts, KeyAnswer};
use iam_text::{Moment, OutOfMemory, let_go};
use std::alloc::Global;

// The second before 2026-01-01T00:00:00Z
const BEFORE: Moment = Moment(1_767_225_599);

// A call of its own, so that what `line_answer` promises is not carried along by the rest.
fn task_line(
    alloc: Global,
    task: Task,
    facts: &Context,
    text: &str,
) -> Result<String, OutOfMemory> {
    line_answer(alloc, task, facts, text)
}

fn before_line(alloc: Global, text: &str) -> Result<String, OutOfMemory> {
    let mut facts = stated_context(alloc)?;
    facts.moment = BEFORE;
    let line = task_line(alloc, Task::Value, &facts, text);
    let_go(facts);
    line
}

// A name has a slash, and a number none.
fn known<'a>(facts: &'a Context, key: &str) -> KeyAnswer<'a> {
    match key.parse::<u64>() {
        Ok(number) => facts.key_numbered(number),
        Err(_) => facts.key_named(key),
    }
}

fn key_line(alloc: Global, facts: &Context, key: &str) -> Result<String, OutOfMemory> {
    let line = match known(facts, key) {
        KeyAnswer::Unknown => String::from_str(alloc, "unknown")?,
        KeyAnswer::Unbound => String::from_str(alloc, "unbound")?,
        KeyAnswer::Bound { number, short } => format!(in alloc; "{number} {short}")?,
    };
    Ok(line)
}

/// What is written for a line of the first part.
pub fn answer(alloc: Global, facts: &Context, line: &str) -> Result<String, OutOfMemory> {
    if line.is_empty() || line.starts_with("# ") {
        return Ok(String::from_str(alloc, line)?);
    }
    let (word, text) = line.split_once(' ').unwrap_or((line, ""));
    match word {
        "allow" => task_line(alloc, Task::Check(Place::Allow), facts, text),
        "deny" => task_line(alloc, Task::Check(Place::Deny), facts, text),
        "binding" => task_line(alloc, Task::Check(Place::Binding), facts, text),
        "before" => before_line(alloc, text),
        "principal" => principal_line(alloc, facts, text),
        "key" => key_line(alloc, facts, text),
        "tokens" => count_line(alloc, text),
        "tree" => tree_line(alloc, text),
        "same" => same_line(alloc, text),
        _ => Ok(String::from_str(alloc, "?")?),
    }
}
