use crate::{Binding, Condition, DenyRule, NamedRule, Stage};
use iam_names::{Caller, Email, Leaf, NodeName, PermissionName, PrincipalSet, RoleName};
use iam_text::{List, Moment, Text};

/// A change that is asked for. An absent etag overwrites whatever is stored.
#[derive(Drop)]
pub enum Command {
    SetAllow {
        node: NodeName,
        version: u64,
        etag: Option<u64>,
        bindings: List<Binding>,
    },
    CreateFolder {
        parent: NodeName,
        display: Text,
    },
    RenameFolder {
        node: NodeName,
        display: Text,
    },
    CreateProject {
        project: Text,
        parent: NodeName,
        display: Text,
    },
    Move {
        node: NodeName,
        to: NodeName,
    },
    DeleteNode {
        node: NodeName,
    },
    UndeleteNode {
        node: NodeName,
    },
    CreateTagKey {
        parent: NodeName,
        short: Text,
    },
    DeleteTagKey {
        number: u64,
    },
    CreateTagValue {
        key: u64,
        short: Text,
    },
    DeleteTagValue {
        number: u64,
    },
    BindTag {
        node: NodeName,
        value: u64,
    },
    UnbindTag {
        node: NodeName,
        value: u64,
    },
    CreateGroup {
        email: Email,
    },
    DeleteGroup {
        email: Email,
    },
    AddMember {
        group: Email,
        member: Leaf,
    },
    RemoveMember {
        group: Email,
        member: Leaf,
    },
    CreateRole {
        owner: NodeName,
        id: Text,
        title: Text,
        stage: Stage,
        permissions: List<PermissionName>,
    },
    UpdateRole {
        name: RoleName,
        etag: Option<u64>,
        title: Text,
        stage: Stage,
        permissions: List<PermissionName>,
    },
    DeleteRole {
        name: RoleName,
    },
    UndeleteRole {
        name: RoleName,
    },
    CreateDeny {
        node: NodeName,
        id: Text,
        display: Text,
        rules: List<DenyRule>,
    },
    UpdateDeny {
        node: NodeName,
        id: Text,
        etag: Option<u64>,
        display: Text,
        rules: List<DenyRule>,
    },
    DeleteDeny {
        node: NodeName,
        id: Text,
    },
    CreateBoundary {
        parent: NodeName,
        id: Text,
        display: Text,
        version: u8,
        rules: List<NamedRule>,
    },
    UpdateBoundary {
        parent: NodeName,
        id: Text,
        etag: Option<u64>,
        display: Text,
        version: u8,
        rules: List<NamedRule>,
    },
    DeleteBoundary {
        parent: NodeName,
        id: Text,
    },
    CreateBound {
        node: NodeName,
        id: Text,
        target: PrincipalSet,
        owner: NodeName,
        policy: Text,
        condition: Option<Condition>,
    },
    DeleteBound {
        node: NodeName,
        id: Text,
    },
}

/// A change as the history has it: who asked for it, and when.
#[derive(Drop)]
pub struct Entry {
    pub caller: Caller,
    pub moment: Moment,
    pub command: Command,
}
