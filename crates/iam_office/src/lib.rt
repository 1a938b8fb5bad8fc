//! The conversation: messages of one line, an office that answers them, and their replies.
//!
//! An `Office` stands for first tables and the history since. `converse` answers the messages of a line over any
//! office, each as soon as it is whole: its contract says which messages, by which bytes, at which moments, and how it ends. Where nobody else adds
//! to the history, the bytes follow from the first tables, the messages and the steps.
#![tactic(auto)]

mod closing;
mod conversing;
mod exchange;
mod floors;
mod handling;
mod laws;
mod office;
mod stop;
mod talking;
mod telling;

pub use conversing::converse;
pub use exchange::send_all;
pub use laws::{all_are_answered, replies_follow};
pub use office::{FloorStop, Numbered, Office, WriteStop};
