//! What a keeper keeps: the rows of the tables' facts.
//!
//! `open` gives the index over the tables of a keeper's rows, or keeps those of an opening where there are none, and says
//! which row or rule refuses them. `keep` commits the changes of an accepted entry: afterwards the keeper has the rows of the
//! facts that the changes lead to.
#![tactic(auto)]

mod keeping;
mod laws;
mod opening;
mod stop;

pub use keeping::keep;
pub use laws::rows_open_once;
pub use opening::open;
pub use stop::{LoadFault, OpenStop};
