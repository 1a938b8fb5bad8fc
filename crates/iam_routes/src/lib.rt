//! What a message asks for.
//!
//! `asked` gives the first refusal that a message alone has, else its caller and its call. `IsAsked` says which:
//! the route table, the forms of paths and callers, and the order of the refusals stand in `specs/`. `Routes` has the
//! table's paths in a router, and is made once.
#![tactic(auto)]

mod caller;
mod given;
mod laws;
mod line;
mod message;
mod parts;
mod query;
mod route;
mod routes;
mod segment;
mod table;
mod target;

pub use given::Asked;
pub use laws::one_asking;
pub use message::asked;
pub use routes::Routes;
