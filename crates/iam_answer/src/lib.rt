//! What reads and changes are answered in a state, and the bytes of replies.
//!
//! `answer` gives exactly `answer_of` in the tables of an index: the first refusal of the read's line in the order
//! of refusals, else what the line shows. `written` gives what an accepted change is answered in the tables after it.
//! `plain_reply`, `keeper_reply`, `served_reply`, `no_memory_reply` and `StoredReply` are the bytes of each kind of reply.
#![tactic(auto)]

mod answers;
mod changes;
mod laws;
mod nodes;
mod policies;
mod replies;
mod stored;
mod testing;

pub use answers::answer;
pub use changes::written;
pub use laws::{replies_tell_acceptance, written_answers_accept};
pub use replies::{keeper_reply, no_memory_reply, plain_reply, served_reply};
pub use stored::StoredReply;
