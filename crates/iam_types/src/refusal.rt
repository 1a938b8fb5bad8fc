use iam_names::{PermissionName, RoleName};
use iam_text::Text;

/// What a limit counts.
#[derive(Clone, Copy, Debug, PartialEq, Eq)]
pub enum LimitName {
    PolicyMembers,
    PolicyGroups,
    SameRoleConditions,
    Operators,
    DenyRules,
    BoundaryRules,
    BoundaryResources,
    SetBindings,
    TagBindings,
    ChildFolders,
    PermissionsAsked,
    RolePermissions,
    Nodes,
    Tags,
    Groups,
    Edges,
    Roles,
    Members,
    DenyEntries,
    Boundaries,
    Bounds,
    ConditionBytes,
    Changes,
}

/// What is wrong with the hierarchy that would come.
#[derive(Clone, Copy, Debug, PartialEq, Eq)]
pub enum Fault {
    Parent,
    Cycle,
    Depth,
    SiblingName,
    NotEmpty,
}

/// Why a call is refused in the state that judges it, with the details that its reply shows.
#[derive(Drop)]
pub enum Refusal {
    FutureRevision {
        asked: u64,
        known: u64,
    },
    NotFound {
        name: Text,
    },
    DeniedBoundary {
        binding: Text,
    },
    DeniedRule {
        policy: Text,
        rule: u32,
    },
    NotGranted {
        permission: PermissionName,
    },
    NotActive {
        name: Text,
    },
    AlreadyExists {
        name: Text,
    },
    EtagMismatch {
        current: u64,
    },
    Version {
        given: u64,
    },
    ConditionForm {
        kind: Text,
        offset: u32,
    },
    ConditionPlace {
        role: RoleName,
    },
    RoleUnknown {
        role: RoleName,
    },
    RoleScope {
        role: RoleName,
    },
    PermissionUnknown {
        permission: Text,
    },
    Limit {
        counted: u64,
        limit: u64,
        which: LimitName,
    },
    Hierarchy {
        counted: u64,
        limit: u64,
        which: Fault,
    },
    GroupCycle,
    TagRule,
    InUse {
        name: Text,
    },
}
