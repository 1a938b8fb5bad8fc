//! The bodies of requests and replies.
//!
//! `read_call` gives the call of a route and a body, or the first member of the body that is bad. `answer_body`
//! and `error_body` print what is answered: each answer and each refusal has its data by a definition in `specs/`,
//! and its body is that data in `serde_json`'s compact form, members in the order of their bytes.
#![tactic(auto)]

mod answer;
mod call;
mod details;
mod laws;
mod line;
mod node;
mod node_calls;
mod policy;
mod query;
mod reply;
mod resource;
mod route;

pub use answer::answer_body;
pub use call::{Call, read_call};
pub use details::Details;
pub use iam_json_data::{BodyStop, etag_number, etag_text};
pub use laws::one_call;
pub use reply::{ErrorReply, code_of, error_body, refusal_code};
pub use route::{Line, Route};
