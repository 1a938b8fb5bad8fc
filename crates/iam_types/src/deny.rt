use crate::Condition;
use iam_names::{DenyPrincipal, NodeId, PermissionGroup};
use iam_text::{List, Text};

/// Denies permissions to principals, but for those that are excepted.
#[derive(Drop)]
pub struct DenyRule {
    pub description: Text,
    pub denied: List<DenyPrincipal>,
    pub spared: List<DenyPrincipal>,
    pub permissions: List<PermissionGroup>,
    pub spared_permissions: List<PermissionGroup>,
    pub condition: Option<Condition>,
}

#[derive(Drop)]
pub struct DenyPolicy {
    pub node: NodeId,
    pub id: Text,
    pub display: Text,
    pub rules: List<DenyRule>,
    pub set: u64,
}
