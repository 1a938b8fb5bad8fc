//! Reads a line, does what it says with public calls of the libraries, and writes one line for it: the tests of names, bodies,
//! messages, tables and rows, as one stored run.
//!
//! A line is a kind, a word, and behind a space the words that it is given; each module says what its kinds are. An empty line
//! and a heading, a line that begins with `# `, are written back, so that input and output read side by side. `?` answers a kind
//! that no module knows.
#![tactic(auto)]

mod asks;
mod bodies;
mod facts;
mod messages;
mod names;
mod rows;
mod tables;
mod things;
mod values;
mod words;

use iam_text::OutOfMemory;
use std::alloc::{AllocError, Global};
use std::io;

// Puts what a line of a kind comes to behind a text, and answers whether a module knows the kind.
fn answer(alloc: Global, kind: &str, words: &str, out: &mut String) -> Result<bool, OutOfMemory> {
    Ok(
        names::answer(alloc, kind, words, out)?
            || asks::answer(alloc, kind, words, out)?
            || tables::answer(alloc, kind, words, out)?,
    )
}

fn line_answer(alloc: Global, line: &str) -> Result<String, OutOfMemory> {
    if line.is_empty() || line.starts_with("# ") {
        return Ok(String::from_str(alloc, line)?);
    }
    let (kind, words) = words::cut(line, " ");
    let mut out = String::new(alloc);
    if !answer(alloc, kind, words, &mut out)? {
        out.push_str("?")?;
    }
    Ok(out)
}

fn refused(_: OutOfMemory) -> io::Error {
    AllocError.into()
}

fn main(rt: HostRuntime) -> io::Result<()> {
    for line in rt.lines(rt.alloc()) {
        let answer = line_answer(rt.alloc(), line?.as_str()).map_err(refused)?;
        println!(rt; "{answer}")?;
    }
    Ok(())
}
