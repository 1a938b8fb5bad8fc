//! The tables that an organisation starts from, and the facts that are kept of tables.
//!
//! What the tables are is told by their fields. `facts_of` gives the facts that are kept of tables, `from_facts` the
//! tables again, or the first rule that facts break.
#![tactic(auto)]

mod consistent;
mod facts;
mod given;
mod hierarchy;
mod numbers;
mod opening;
mod stop;

pub use facts::facts_of;
pub use given::from_facts;
pub use opening::opening_tables;
pub use stop::TablesStop;
