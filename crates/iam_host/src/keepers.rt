// The keepers of the program.
use iam_outer::{List, MemoryKeeper};
use iam_sqlite::SqliteKeeper;
use sqlite::{Connection, Error, File, FileStore};
use std::alloc::Global;
use std::rt::HostRuntime;

pub type FileKeeper = SqliteKeeper<FileStore<File>>;

// A call of its own, so that what it promises is not carried along by the rest.
fn open(rt: &HostRuntime, path: &str) -> Result<Connection<FileStore<File>>, Error> {
    Connection::open(rt, path)
}

/// A keeper over this file, or over what its opening failed with.
pub fn file_keeper(rt: &HostRuntime, path: &str) -> FileKeeper {
    SqliteKeeper::new(rt.alloc(), open(rt, path))
}

/// A keeper in memory, which has no rows.
pub fn memory_keeper(alloc: Global) -> MemoryKeeper {
    MemoryKeeper::new(alloc, List::new(alloc), List::new(alloc))
}
