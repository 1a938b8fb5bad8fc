//! Requests and replies as bytes.
//!
//! A message is an HTTP/1.1 request whose head `httparse` completes, and its body. `IsMessage` says which bytes are one,
//! `Reads` which messages a whole input is and how it ends, and `bytes_of` which bytes a reply is: the calls here read and
//! write exactly those. `Wire` reads messages out of bytes that come in pieces.
#![tactic(auto)]

mod fault;
mod fields;
mod front;
mod head;
mod laws;
mod message;
mod number;
mod options;
mod reply;
mod step;
mod target;
mod values;
mod wire;

pub use fault::FrameFault;
pub use laws::{
    found_stays, one_front, one_message, one_stream, prefixes_are_short, some_front, some_stream,
    stream_as_read, stream_in_turn,
};
pub use message::{Field, Message};
pub use number::number_of;
pub use reply::{Reply, reply_bytes};
pub use wire::{Next, Wire};
