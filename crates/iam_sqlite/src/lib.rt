//! Rows in a database of SQLite, over a file or over memory.
//!
//! A `SqliteKeeper` is a `Keeper` that tells no rows: no contract says what a file holds. It fails only where its
//! count of faults rose, and a refusal of memory is told apart. Each database call stands in a function of its own,
//! since a proof carries all that such a call says of the database.
#![tactic(auto)]

mod keeper;
mod table;

pub use keeper::SqliteKeeper;
