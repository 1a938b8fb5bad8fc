// What keepers keep: rows in memory, and rows in a database, which are tried over memory.
use iam_outer::{Keeper, List, MemoryKeeper, Row, RowWrite, Text};
use iam_sqlite::SqliteKeeper;
use iam_text::{OutOfMemory, let_go};
use sqlite::{Connection, Error, ErrorCode, MemStore};
use std::alloc::Global;
use std::test::Fail;

/// A write: the part and the name of a row, and its body, or none where it is cut.
type Write = (&'static str, &'static str, Option<&'static str>);

/// A row: its part, its name and its body.
type Kept = (&'static str, &'static str, &'static str);

/// The writes of a commit, whether it is made, and the rows behind it.
type Commit = (&'static [Write], bool, &'static [Kept]);

static MADE: [Commit; 4] = [
    (&[], true, &[]),
    // Rows come by part and then by name, in bytes.
    (
        &[
            ("org", "b", Some("1")),
            ("allow", "\u{e9}", Some("2")),
            ("allow", "a", Some("3")),
            ("allow", "Z", Some("4")),
        ],
        true,
        &[
            ("allow", "Z", "4"),
            ("allow", "a", "3"),
            ("allow", "\u{e9}", "2"),
            ("org", "b", "1"),
        ],
    ),
    // A row is put in place of another, and two are cut, of which one isn't there.
    (
        &[
            ("org", "b", Some("5")),
            ("allow", "a", None),
            ("allow", "b", None),
        ],
        true,
        &[
            ("allow", "Z", "4"),
            ("allow", "\u{e9}", "2"),
            ("org", "b", "5"),
        ],
    ),
    // The writes are made in turn.
    (
        &[
            ("org", "b", None),
            ("org", "b", Some("6")),
            ("allow", "Z", Some("7")),
            ("allow", "Z", None),
        ],
        true,
        &[("allow", "\u{e9}", "2"), ("org", "b", "6")],
    ),
];

// Where one write is refused none is made, and the next commit is as if it had not been there.
static REFUSED: [Commit; 3] = [
    (
        &[("org", "b", Some("6")), ("allow", "a", Some("2"))],
        true,
        &[("allow", "a", "2"), ("org", "b", "6")],
    ),
    (
        &[
            ("org", "a", Some("7")),
            ("allow", "a", None),
            ("org", "b", Some("bad")),
        ],
        false,
        &[("allow", "a", "2"), ("org", "b", "6")],
    ),
    (
        &[("org", "b", Some("8"))],
        true,
        &[("allow", "a", "2"), ("org", "b", "8")],
    ),
];

// The tables behind calls that say nothing of them: what uses them is proved without their texts.
fn made() -> &'static [Commit] {
    &MADE
}

fn refused() -> &'static [Commit] {
    &REFUSED
}

fn row_of(alloc: Global, part: &str, name: &str, body: &str) -> Result<Row, OutOfMemory> {
    Ok(Row {
        part: Text::of(alloc, part)?,
        name: Text::of(alloc, name)?,
        body: Text::of(alloc, body)?,
    })
}

fn write_of(alloc: Global, write: &Write) -> Result<RowWrite, OutOfMemory> {
    let (part, name, body) = write;
    match body {
        Some(body) => Ok(RowWrite::Put(row_of(alloc, part, name, body)?)),
        None => Ok(RowWrite::Cut {
            part: Text::of(alloc, part)?,
            name: Text::of(alloc, name)?,
        }),
    }
}

fn writes_of(alloc: Global, writes: &[Write]) -> Result<List<RowWrite>, OutOfMemory> {
    let mut all = List::new(alloc);
    for write in writes {
        all.push(write_of(alloc, write)?)?;
    }
    Ok(all)
}

fn rows_of(alloc: Global, kept: &[Kept]) -> Result<List<Row>, OutOfMemory> {
    let mut rows = List::new(alloc);
    for (part, name, body) in kept {
        rows.push(row_of(alloc, part, name, body)?)?;
    }
    Ok(rows)
}

fn has_rows<P: Keeper>(keeper: &mut P, wanted: &[Row]) -> bool {
    match keeper.load() {
        Ok(rows) => rows.as_slice() == wanted,
        Err(_) => false,
    }
}

// The writes are let go before anything can be refused.
fn is_made<P: Keeper>(keeper: &mut P, writes: List<RowWrite>) -> bool {
    let made = keeper.commit(writes.as_slice()).is_ok();
    let_go(writes);
    made
}

fn comes_true<P: Keeper>(
    alloc: Global,
    keeper: &mut P,
    commit: &Commit,
) -> Result<bool, OutOfMemory> {
    let (writes, made, rows) = commit;
    let was_made = is_made(keeper, writes_of(alloc, writes)?);
    let wanted = rows_of(alloc, rows)?;
    Ok(was_made == *made && has_rows(keeper, wanted.as_slice()))
}

// Whether each commit, in turn, comes to what it should.
fn keeps<P: Keeper>(
    alloc: Global,
    keeper: &mut P,
    commits: &[Commit],
) -> Result<bool, OutOfMemory> {
    for commit in commits {
        if !comes_true(alloc, keeper, commit)? {
            return Ok(false);
        }
    }
    Ok(true)
}

// A keeper in memory, whose call with this number fails.
fn over_memory(alloc: Global, failing: u64, commits: &[Commit]) -> Result<bool, OutOfMemory> {
    let mut numbers = List::new(alloc);
    numbers.push(failing)?;
    let mut keeper = MemoryKeeper::new(alloc, List::new(alloc), numbers);
    keeps(alloc, &mut keeper, commits)
}

// Each call of the database stands in a function of its own that ensures nothing, so that no other proof carries what the
// call says of the database.
fn opened(alloc: Global) -> Result<Connection<MemStore>, Error> {
    match Connection::open_in_memory(alloc) {
        Ok(connection) => Ok(connection),
        Err(_) => Err(Error::SqliteFailure(ErrorCode::OutOfMemory)),
    }
}

fn make_table(connection: &mut Connection<MemStore>, text: &str) -> Result<usize, Error> {
    connection.execute(text, &[])
}

// A table that takes no row with the body `bad`.
const WITHOUT_BAD: &str = "CREATE TABLE iam_rows (part TEXT NOT NULL, name TEXT NOT NULL, \
    body TEXT NOT NULL CHECK (body <> 'bad'), PRIMARY KEY (part, name)) STRICT";

fn without_bad(alloc: Global) -> Result<Connection<MemStore>, Error> {
    let mut connection = opened(alloc)?;
    match make_table(&mut connection, WITHOUT_BAD) {
        Ok(_) => Ok(connection),
        Err(error) => {
            let_go(connection);
            Err(error)
        }
    }
}

fn over_database(
    alloc: Global,
    opened: Result<Connection<MemStore>, Error>,
    commits: &[Commit],
) -> Result<bool, OutOfMemory> {
    let mut keeper = SqliteKeeper::new(alloc, opened);
    let kept = keeps(alloc, &mut keeper, commits);
    let_go(keeper);
    kept
}

#[test]
fn rows_in_memory_and_in_a_database_are_kept(rt: HostRuntime) -> Result<(), Fail> {
    let alloc = rt.alloc();
    assert!(rt; over_memory(alloc, 0, made())?);
    // Each commit is followed by one call that loads, so the third call is the second commit.
    assert!(rt; over_memory(alloc, 3, refused())?);
    assert!(rt; over_database(alloc, opened(alloc), made())?);
    assert!(rt; over_database(alloc, without_bad(alloc), refused())?);
    Ok(())
}
