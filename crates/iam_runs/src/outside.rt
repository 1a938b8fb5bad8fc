// What a run stands on, in memory.
use crate::case::Case;
use iam_catalogue::Catalogue;
use iam_outer::{
    Line, List, MemoryClock, MemoryKeeper, MemorySink, MemorySource, Moment, OutOfMemory, Pair,
    Row, Text, Zones,
};
use iam_server::{RunEnd, run};
use std::alloc::Global;

// The one moment that the clock gives.
const MOMENT: Moment = Moment(1_767_225_600);

/// The words of a run, its clock and its keeper.
#[derive(Drop)]
pub struct Outside {
    words: List<Text>,
    clock: MemoryClock,
    pub keeper: MemoryKeeper,
}

/// The words of a line: two spaces have an empty word between them.
pub fn words_of(alloc: Global, line: &str) -> Result<List<Text>, OutOfMemory> {
    let mut words = List::new(alloc);
    for word in line.split(' ') {
        words.push(Text::of(alloc, word)?)?;
    }
    Ok(words)
}

fn calls(alloc: Global, failing: usize) -> Result<List<u64>, OutOfMemory> {
    let mut calls = List::new(alloc);
    calls.push(failing as u64)?;
    Ok(calls)
}

fn clock_of(alloc: Global, case: &Case) -> Result<MemoryClock, OutOfMemory> {
    let mut moments = List::new(alloc);
    moments.push(MOMENT)?;
    Ok(MemoryClock::new(moments, calls(alloc, case.failing_clock)?))
}

fn copies(alloc: Global, rows: &[Row]) -> Result<List<Row>, OutOfMemory> {
    let mut copies = List::new(alloc);
    for row in rows {
        copies.push(row.clone()?)?;
    }
    Ok(copies)
}

fn keeper_of(alloc: Global, case: &Case) -> Result<MemoryKeeper, OutOfMemory> {
    let rows = copies(alloc, case.rows.as_slice())?;
    Ok(MemoryKeeper::new(alloc, rows, calls(alloc, case.failing_keeper)?))
}

pub fn outside_of(alloc: Global, case: &Case) -> Result<Outside, OutOfMemory> {
    Ok(Outside {
        words: words_of(alloc, case.words.as_str())?,
        clock: clock_of(alloc, case)?,
        keeper: keeper_of(alloc, case)?,
    })
}

pub type InMemory = Pair<MemorySource, MemorySink>;

/// A line that gives this input, and takes what the case has room for.
pub fn line_of(alloc: Global, case: &Case, input: &[u8]) -> Result<InMemory, OutOfMemory> {
    let mut bytes = List::new(alloc);
    bytes.push_all(input)?;
    let source = MemorySource::new(bytes, calls(alloc, case.failing_read)?);
    let sink = MemorySink::new(alloc, case.room, List::new(alloc))?;
    Ok(Pair::new(source, sink))
}

/// The end of the run. A call of its own, so that what `run` promises is not carried along by the rest.
pub fn end_of<L: Line>(
    alloc: Global,
    outside: &mut Outside,
    line: &mut L,
) -> Result<RunEnd, OutOfMemory> {
    let catalogue = Catalogue::built_in(alloc)?;
    Ok(run(
        alloc,
        outside.words.as_slice(),
        line,
        &mut outside.clock,
        &mut outside.keeper,
        catalogue,
        Zones::none(alloc),
    ))
}
