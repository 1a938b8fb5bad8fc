//! The office of one conversation: an index, a keeper, and the entries that were accepted.
//!
//! A write is judged, kept, and then taken up by the index, so that what is answered as accepted or stored is kept.
//! `converse_alone` is a conversation over such an office: its contract says by which bytes the messages are answered
//! from the first tables on, and which rows the keeper has afterwards.
#![tactic(auto)]

mod alone;
mod lone;
mod storing;

pub use alone::converse_alone;
pub use lone::Lone;
