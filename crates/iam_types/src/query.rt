use iam_names::{Caller, NodeId, PermissionName, RoleName};
use iam_text::{List, Moment, Text};

/// What conditions see of a resource: its type, its service and its name.
#[derive(Drop)]
pub struct ResourceFacts {
    pub kind: Text,
    pub service: Text,
    pub name: Text,
}

/// May this caller use this permission there, at this moment?
#[derive(Drop)]
pub struct Query {
    pub caller: Caller,
    pub node: NodeId,
    pub permission: PermissionName,
    pub resource: ResourceFacts,
    pub moment: Moment,
    pub modified: List<RoleName>,
}

/// What decided: the binding of a node's policy by its place from 0, a boundary binding, a deny rule, or none.
#[derive(Drop)]
pub enum Decision {
    Allowed { node: NodeId, place: u32 },
    DeniedBoundary { binding: Text },
    DeniedRule { policy: Text, rule: u32 },
    NotGranted,
}
