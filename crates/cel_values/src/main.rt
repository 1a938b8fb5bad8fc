//! Shows of conditions what the stored run of `cel_lines` doesn't. Its input has two parts, with a line `--` between them.
//!
//! In the first part each line is a word, which says what is asked, and behind a space the text of which it is asked. `?` answers
//! other words, and a text that doesn't read. An empty line and a heading, which begins with `# `, are written back.
//!
//! | Line | What is written for it |
//! |---|---|
//! | `allow TEXT`, `deny TEXT`, `binding TEXT` | what `cel_lines` writes with this word |
//! | `before TEXT` | what `cel_lines` writes with the word `value`, a second before the moment of its context |
//! | `principal TEXT` | what a condition of a binding comes to in that context |
//! | `key NAME`, `key NUMBER` | what that context knows of a tag key |
//! | `tokens TEXT` | how many tokens it has; `␉`, `␊`, `␌` and `␍` stand for a tab, a line feed, a form feed and a carriage return |
//! | `tree TEXT` | the nodes of its tree, each before its parts, with both ends of their spans |
//! | `same TEXT ; TEXT` | whether the trees of both are equal, spans too |
//!
//! The second part is the run of `cel_lines` once more, so that one with the word `value` is stored, too, as `args` has it.
#![tactic(auto)]

mod asked;
mod outcomes;
mod tokens;
mod trees;

use crate::asked::answer;
use cel_answers::stated_context;
use cel_value::Context;
use iam_text::{OutOfMemory, let_go};
use std::alloc::AllocError;
use std::io;
use std::process::ExitCode;

fn refused(_: OutOfMemory) -> io::Error {
    AllocError.into()
}

// Reads no byte behind the line that ends the first part.
fn first_part(rt: &HostRuntime, facts: &Context) -> io::Result<()> {
    for line in rt.lines(rt.alloc()) {
        let line = line?;
        if line.as_str() == "--" {
            break;
        }
        let written = answer(rt.alloc(), facts, line.as_str()).map_err(refused)?;
        println!(rt; "{written}")?;
    }
    println!(rt; "--")
}

fn main(rt: HostRuntime) -> io::Result<ExitCode> {
    let facts = stated_context(rt.alloc()).map_err(refused)?;
    let written = first_part(&rt, &facts);
    let_go(facts);
    written?;
    cel_answers::run(&rt)
}
