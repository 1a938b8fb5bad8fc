// The table of rows, and what is asked of it.
ghost use Rattle.std.specs.Prelude.{◌≡◌, IfOk, map};
ghost use Rattle.sqlite_value.specs.Order.{column as value_at};
ghost use Rattle.sqlite_value.specs.declared.value.Value.TheVariants.{Text as TextValue};
ghost use Rattle.iam_sqlite.specs.Shown.{columns_of, shown};

use iam_outer::{List, Row, RowWrite, Text};
use sqlite::{Alter, Connection, Error, ErrorCode, Transaction, params};
use std::alloc::Global;

const CREATE: &str = "CREATE TABLE IF NOT EXISTS iam_rows (part TEXT NOT NULL, name TEXT NOT NULL, \
    body TEXT NOT NULL, PRIMARY KEY (part, name)) STRICT";

const SELECT: &str = "SELECT part, name, body FROM iam_rows ORDER BY part, name";

const UPSERT: &str = "INSERT INTO iam_rows (part, name, body) VALUES (?1, ?2, ?3) \
    ON CONFLICT (part, name) DO UPDATE SET body = excluded.body";

const DELETE: &str = "DELETE FROM iam_rows WHERE part = ?1 AND name = ?2";

const NO_MEMORY: Error = Error::SqliteFailure(ErrorCode::OutOfMemory);

fn create<S: Alter>(connection: &mut Connection<S>) -> Result<usize, Error> {
    connection.execute(CREATE, &[])
}

fn select<S: Alter>(connection: &mut Connection<S>) -> Result<Vec<sqlite::Row>, Error> {
    connection.query_all(SELECT, &[])
}

fn text_at(found: &sqlite::Row, column: usize) -> Result<Text, Error>
    ensures { IfOk result (λ text. value_at found.now column ≡ TextValue text) }
{
    let text: String = found.get(column)?;
    Ok(Text::from(text))
}

fn row_of(found: &sqlite::Row) -> Result<Row, Error>
    ensures { IfOk result (λ row. columns_of found.now ≡ shown row) }
{
    Ok(Row {
        part: text_at(found, 0)?,
        name: text_at(found, 1)?,
        body: text_at(found, 2)?,
    })
}

fn rows_of(alloc: Global, found: &[sqlite::Row]) -> Result<List<Row>, Error>
    ensures { IfOk result (λ rows. map columns_of found.now ≡ map shown rows) }
{
    let mut rows = List::new(alloc);
    for row in found {
        if rows.push(row_of(row)?).is_err() {
            return Err(NO_MEMORY);
        }
    }
    Ok(rows)
}

/// The rows, by part and then by name in bytes. Where there is no table yet, it is made.
pub fn load_rows<S: Alter>(
    alloc: Global,
    connection: &mut Connection<S>,
) -> Result<List<Row>, Error> {
    create(connection)?;
    let found = select(connection)?;
    rows_of(alloc, found.as_slice())
}

fn upsert<S: Alter>(transaction: &mut Transaction<'_, S>, row: &Row) -> Result<usize, Error> {
    transaction.execute(
        UPSERT,
        params![row.part.as_str(), row.name.as_str(), row.body.as_str()],
    )
}

fn delete<S: Alter>(
    transaction: &mut Transaction<'_, S>,
    part: &Text,
    name: &Text,
) -> Result<usize, Error> {
    transaction.execute(DELETE, params![part.as_str(), name.as_str()])
}

fn write_one<S: Alter>(
    transaction: &mut Transaction<'_, S>,
    write: &RowWrite,
) -> Result<usize, Error> {
    match write {
        RowWrite::Put(row) => upsert(transaction, row),
        RowWrite::Cut { part, name } => delete(transaction, part, name),
    }
}

fn write_all<S: Alter>(
    transaction: &mut Transaction<'_, S>,
    writes: &[RowWrite],
) -> Result<(), Error> {
    for write in writes {
        write_one(transaction, write)?;
    }
    Ok(())
}

/// Makes all writes in one transaction, which is rolled back where one of them fails. In a transaction that is open
/// already none is made.
pub fn commit_writes<S: Alter>(
    connection: &mut Connection<S>,
    writes: &[RowWrite],
) -> Result<(), Error> {
    if !connection.is_autocommit() {
        return Err(Error::SqliteFailure(ErrorCode::TransactionState));
    }
    let mut transaction = connection.transaction();
    write_all(&mut transaction, writes)?;
    transaction.commit()
}
