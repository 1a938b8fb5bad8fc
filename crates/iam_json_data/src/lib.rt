//! JSON bodies and their members: what is printed, what is read, and where a body is bad.
//!
//! Contracts see a body as the data that `serde_json` defines. `text_of` prints data compactly, its members in
//! the order of their bytes, and `read_body` gives the data of a body. What a member is read as stands in the
//! trait `FromJson`, what a value is shown as in the trait `ToJson`; the functions here join them.
#![tactic(auto)]

mod binding;
mod body;
mod etag;
mod member;
mod names;
mod print;
mod shown;
mod stop;

pub use binding::read_absent;
pub use body::read_body;
pub use etag::{etag_number, etag_text, etag_value};
pub use member::{FromJson, read_member, read_required};
pub use print::{ToJson, list_value, text_of};
pub use stop::{BodyStop, bad_here};
