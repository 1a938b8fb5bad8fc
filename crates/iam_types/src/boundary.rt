use crate::Condition;
use iam_names::{NodeId, NodeName, PrincipalSet};
use iam_text::{List, Text};

/// The nodes that a principal access boundary makes eligible, with all below them.
#[derive(Drop)]
pub struct BoundaryRule {
    pub description: Text,
    pub resources: List<NodeId>,
}

/// A rule as a request gives it.
#[derive(Drop)]
pub struct NamedRule {
    pub description: Text,
    pub resources: List<NodeName>,
}

/// A principal access boundary policy; `version` is its enforcement version.
#[derive(Drop)]
pub struct Boundary {
    pub id: Text,
    pub display: Text,
    pub version: u8,
    pub rules: List<BoundaryRule>,
    pub set: u64,
}

/// A boundary policy bound to a set of principals, where the condition holds.
#[derive(Drop)]
pub struct BoundaryBinding {
    pub node: NodeId,
    pub id: Text,
    pub target: PrincipalSet,
    pub policy: Text,
    pub condition: Option<Condition>,
}
