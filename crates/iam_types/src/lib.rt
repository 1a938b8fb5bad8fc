//! The plain types of all layers: what the tables hold, what is asked and commanded, what is answered.
//!
//! They are data alone. What they mean is defined in `iam_model`.
#![tactic(auto)]

mod allow;
mod answer;
mod ask;
mod boundary;
mod catalogue;
mod command;
mod deny;
mod explanation;
mod fact;
mod group;
mod node;
mod query;
mod refusal;
mod role;
mod tables;
mod tag;

pub use allow::{AllowPolicy, Binding, Condition, copy_binding, copy_condition, copy_policy};
pub use answer::{Answer, Resource};
pub use ask::{Ask, GivenFacts};
pub use boundary::{Boundary, BoundaryBinding, BoundaryRule, NamedRule};
pub use catalogue::{Level, Permit, Preset};
pub use command::{Command, Entry};
pub use deny::{DenyPolicy, DenyRule};
pub use explanation::{AllowLine, BoundLine, DenyLine, Explanation, Shown};
pub use fact::{Fact, FactChange};
pub use group::Edge;
pub use node::{Node, Org, copy_node, copy_org};
pub use query::{Decision, Query, ResourceFacts};
pub use refusal::{Fault, LimitName, Refusal};
pub use role::{Role, Stage};
pub use tables::{Opening, Tables};
pub use tag::{TagBinding, TagKey, TagValue};
