//! Runs of the server over memory, and what words of the command line say: reads one directive a line, and writes what it comes to.
//! The stored run is a transcript: `stdin` has the cases, and `stdout` what each comes to.
//!
//! An empty line and a heading, which begins with `# `, are written back. `words WORDS` writes the plan that the words say, and
//! `no-words` what none say. All other directives are of runs:
//!
//! | Directive | What it says |
//! |---|---|
//! | `run WORDS` | begins a case: a run of these words over an empty keeper and an empty input, where no call fails |
//! | `many N TEXT` | what `*` stands for behind it: the text, N times, in which `#` is the place, from 0, in four digits |
//! | `row PART NAME BODY` | a row of the keeper, and N of them where its name has a `#` |
//! | `ask CALLER METHOD TARGET BODY` | a request; the caller `-` is none |
//! | `from REVISION CALLER METHOD TARGET BODY` | a request that asks for at least this revision |
//! | `text N TEXT` | what else stands in the input, N times; `\r` and `\n` are the ends of lines |
//! | `no-text N` | N bytes that are no text |
//! | `room N` | how many bytes the sink takes |
//! | `failing-read N`, `failing-clock N`, `failing-keeper N` | which call fails, from 1; 0 is none |
//! | `piece N` | the input comes in pieces of N bytes |
//! | `waiting-piece N` | so, and each read fails, unless something was written since the one before |
//! | `go` | makes the run |
//! | `cuts` | makes a run over the first bytes of the input, for each number of them that is less than all |
//!
//! A run writes the word of its end, what its messages came to, its line and its replies, and the rows that it left, where these
//! aren't those that it was given. Of equal lines in a row one is written, with their number. A `*` stands in place of what it
//! stands for in the case.
#![tactic(auto)]

mod case;
mod directives;
mod lines;
mod outside;
mod pieces;
mod plans;
mod requests;
mod shown;

use crate::case::Case;
use crate::directives::answer;
use iam_text::OutOfMemory;
use std::alloc::AllocError;
use std::io;

fn refused(_: OutOfMemory) -> io::Error {
    AllocError.into()
}

fn answer_line(rt: &HostRuntime, case: &mut Case, line: &str) -> io::Result<()> {
    if line.is_empty() || line.starts_with("# ") {
        return println!(rt; "{line}");
    }
    let (kind, words) = line.split_once(' ').unwrap_or((line, ""));
    let text = answer(rt.alloc(), case, kind, words).map_err(refused)?;
    print!(rt; "{text}")
}

fn main(rt: HostRuntime) -> io::Result<()> {
    let mut case = Case::new(rt.alloc(), "").map_err(refused)?;
    for line in rt.lines(rt.alloc()) {
        answer_line(&rt, &mut case, line?.as_str())?;
    }
    Ok(())
}
