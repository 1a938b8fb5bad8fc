// What a run is over.
use iam_outer::{List, OutOfMemory, Row, Text};
use std::alloc::Global;

const ROOM: usize = 2_000_000;

/// A run: its words with a space between each two, the keeper's rows, its input, what `*` stands for and how many rows a `#`
/// stands for, the room of the sink, which call fails of each object, from 1, and the size of the pieces in which the input comes.
#[derive(Drop)]
pub struct Case {
    pub words: Text,
    pub rows: List<Row>,
    pub input: List<u8>,
    pub many: Text,
    pub count: usize,
    pub room: usize,
    pub failing_read: usize,
    pub failing_clock: usize,
    pub failing_keeper: usize,
    pub piece: usize,
    pub waits: bool,
}

impl Case {
    /// A run of these words over an empty keeper and an empty input.
    pub fn new(alloc: Global, words: &str) -> Result<Case, OutOfMemory> {
        Ok(Case {
            words: Text::of(alloc, words)?,
            rows: List::new(alloc),
            input: List::new(alloc),
            many: Text::of(alloc, "")?,
            count: 0,
            room: ROOM,
            failing_read: 0,
            failing_clock: 0,
            failing_keeper: 0,
            piece: 0,
            waits: false,
        })
    }
}
