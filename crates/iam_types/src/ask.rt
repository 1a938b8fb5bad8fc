use iam_names::{Caller, Email, NodeName, PermissionName, RoleName};
use iam_text::{List, Moment, Text};

/// What a troubleshooting says of the resource; what is absent is that of the node.
#[derive(Drop)]
pub struct GivenFacts {
    pub kind: Option<Text>,
    pub service: Option<Text>,
    pub name: Option<Text>,
}

/// What is asked without a change.
#[derive(Drop)]
pub enum Ask {
    Test {
        node: NodeName,
        permissions: List<PermissionName>,
    },
    Policy {
        node: NodeName,
        version: u64,
    },
    Node {
        node: NodeName,
    },
    Folders {
        parent: NodeName,
    },
    Projects {
        parent: NodeName,
    },
    TagKey {
        number: u64,
    },
    TagValue {
        number: u64,
    },
    Tags {
        node: NodeName,
    },
    Group {
        email: Email,
    },
    Role {
        name: RoleName,
    },
    Denies {
        node: NodeName,
    },
    Deny {
        node: NodeName,
        id: Text,
    },
    Boundary {
        parent: NodeName,
        id: Text,
    },
    Bound {
        node: NodeName,
        id: Text,
    },
    Troubleshoot {
        caller: Caller,
        node: NodeName,
        permission: PermissionName,
        resource: GivenFacts,
        moment: Option<Moment>,
    },
}
