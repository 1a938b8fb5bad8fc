//! Facts as rows, and rows as facts.
//!
//! `row_of` gives the row of a well formed fact. `fact_of` gives the one well formed fact that has a row, byte for
//! byte, and refuses a row exactly where there is none. So what was kept is read back, and nothing else is read.
//! The kinds of facts that are kept so far are the organisation, its folders and projects, and their allow policies.
//! `facts_of_rows` reads many rows, or names the first bad one; `writes_of` and `puts_of` are the writes that keep changes
//! of facts, after which the rows are those of the facts with the changes.
#![tactic(auto)]

mod body;
mod fact;
mod laws;
mod many;
mod row;
mod stop;

pub use fact::fact_of;
pub use laws::{
    facts_stand_as_rows, read_facts_are_kept, rows_follow_changes, rows_tell_facts,
    rows_tell_tables,
};
pub use many::{facts_of_rows, puts_of, writes_of};
pub use row::row_of;
pub use stop::{LoadStop, RowStop};
