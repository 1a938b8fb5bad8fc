//! What conditions compute with: values and outcomes, and the facts of a request that they are evaluated in.
//!
//! A `Context` is plain data. `Facts` is what an evaluator asks, and stands for one context: its contract says
//! that each answer is that of the context, a key being the first one with the name or the number asked for.
#![tactic(auto)]

mod context;
mod facts;
mod value;

pub use context::{Context, KeyFact, ValueFact};
pub use facts::{Facts, KeyAnswer};
pub use value::{EvalFault, Outcome, Value, Verdict};
