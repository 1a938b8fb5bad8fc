// The keeper.
ghost use Rattle.std.specs.Prelude.{◌≡◌, ◌≤◌, Err, None, IfOk, IfSome};
ghost use Rattle.std.specs.Result.{result_err};
ghost use Rattle.iam_outer.specs.Causes.{Rose};
ghost use Rattle.iam_outer.specs.Rows.{KeeperCause};
ghost use Rattle.iam_sqlite.specs.Known.{IsStopFor, AnswersFailure};

use crate::table::{commit_writes, load_rows};
use iam_outer::{Keeper, KeeperStop, List, Row, RowWrite};
use sqlite::{Alter, Connection, Error, ErrorCode};
use std::alloc::Global;
use std::marker::Model;

/// Rows in the table `iam_rows` of a database, or the failure to open one, which each call then answers. It is seen as
/// that failure and its count of faults.
#[derive(Drop)]
pub struct SqliteKeeper<S: Alter> {
    opened: Result<Connection<S>, Error>,
    faults: u64,
    alloc: Global,
}

impl<S: Alter> Model for SqliteKeeper<S> {
    ghost use Rattle.std.specs.Result.{result_err};
    ghost use Rattle.iam_sqlite.specs.Known.{Known};

    ghost Value = { Known };

    ghost view = { λ k. record { failure = result_err k.opened; faults = k.faults } };
}

impl<S: Alter> SqliteKeeper<S> {
    /// What the opening gave. The database may be in no transaction, else each commit fails.
    pub fn new(alloc: Global, opened: Result<Connection<S>, Error>) -> SqliteKeeper<S>
        ensures { result ≡ record { failure = result_err opened; faults = 0 } }
    {
        SqliteKeeper {
            opened,
            faults: 0,
            alloc,
        }
    }

    // What a refusal of the database stops a call with: a fault, which is counted, unless memory was refused.
    fn stop(&mut self, error: Error) -> KeeperStop
        ensures later { self.old.faults ≤ self.new.faults }
        ensures failed { result ≡ KeeperStop.Failed → Rose self.old.faults self.new.faults }
        ensures named { IsStopFor error result }
        ensures same { self.new.failure ≡ self.old.failure }
    {
        if error == Error::SqliteFailure(ErrorCode::OutOfMemory) {
            return KeeperStop::OutOfMemory;
        }
        self.faults = self.faults.saturating_add(1);
        KeeperStop::Failed
    }

    fn rows(&mut self) -> Result<List<Row>, Error>
        ensures unopened { IfSome self.old.failure (λ error. result ≡ Err error) }
        ensures same { self.new ≡ self.old }
    {
        match &mut self.opened {
            Ok(connection) => load_rows(self.alloc, connection),
            Err(error) => Err(*error),
        }
    }

    fn write(&mut self, writes: &[RowWrite]) -> Result<(), Error>
        ensures unopened { IfSome self.old.failure (λ error. result ≡ Err error) }
        ensures same { self.new ≡ self.old }
    {
        match &mut self.opened {
            Ok(connection) => commit_writes(connection, writes),
            Err(error) => Err(*error),
        }
    }
}

impl<S: Alter> Keeper for SqliteKeeper<S> {
    ghost rows = { λ _. None };

    ghost keeper_faults = { λ k. k.faults };

    ghost in_order = { λ _. tt };

    ghost same_as_itself = { λ _. tt };

    ghost same_onward = { λ _ _ _ _ _. tt };

    fn load(&mut self) -> Result<List<Row>, KeeperStop>
        ensures cause { KeeperCause self.old.faults self.new.faults result }
        ensures unopened { IfSome self.old.failure (AnswersFailure result) }
        ensures failure { self.new.failure ≡ self.old.failure }
    {
        match self.rows() {
            Ok(rows) => Ok(rows),
            Err(error) => Err(self.stop(error)),
        }
    }

    fn commit(&mut self, writes: &[RowWrite]) -> Result<(), KeeperStop>
        ensures cause { KeeperCause self.old.faults self.new.faults result }
        ensures unopened { IfSome self.old.failure (AnswersFailure result) }
        ensures failure { self.new.failure ≡ self.old.failure }
    {
        match self.write(writes) {
            Ok(()) => Ok(()),
            Err(error) => Err(self.stop(error)),
        }
    }
}
