use crate::answer::line_answer;
use crate::context::stated_context;
use crate::task::{Task, task_of};
use cel_value::Context;
use iam_text::{List, OutOfMemory, Text};
use std::alloc::{AllocError, Global};
use std::process::ExitCode;
use std::rt::Env;
use std::{env, io};

const WRONG_WORDS: u8 = 2;

fn refused(_: OutOfMemory) -> io::Error {
    AllocError.into()
}

// The words of the command line behind the program's name.
fn words(rt: &(impl Env + AllocGlobal)) -> io::Result<List<Text>> {
    let alloc: Global = rt.alloc();
    let mut words = List::new(alloc);
    for word in env::args(rt)?.skip(1) {
        let word = Text::of(alloc, word.as_str()).map_err(refused)?;
        words.push(word).map_err(refused)?;
    }
    Ok(words)
}

fn answer_lines(rt: &HostRuntime, task: Task, facts: &Context) -> io::Result<()> {
    for line in rt.lines(rt.alloc()) {
        let answer = line_answer(rt.alloc(), task, facts, line?.as_str()).map_err(refused)?;
        println!(rt; "{answer}")?;
    }
    Ok(())
}

/// Writes a line for each line of the input, as the words of the command line ask. Other words are refused: nothing is read
/// then, and the status is 2.
pub fn run(rt: &HostRuntime) -> io::Result<ExitCode> {
    let words = words(rt)?;
    let Some(task) = task_of(words.as_slice()) else {
        eprintln!(rt; "the words are none, or one of allow, deny, binding and value")?;
        return Ok(ExitCode::from(WRONG_WORDS));
    };
    let facts = stated_context(rt.alloc()).map_err(refused)?;
    answer_lines(rt, task, &facts)?;
    Ok(ExitCode::SUCCESS)
}
