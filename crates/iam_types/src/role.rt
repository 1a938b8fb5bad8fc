use iam_names::{PermissionName, RoleName};
use iam_text::{List, Moment, Text};

/// The launch stage of a role.
#[derive(Clone, Copy, Debug, PartialEq, Eq)]
pub enum Stage {
    Alpha,
    Beta,
    Ga,
    Deprecated,
    Disabled,
    Eap,
}

/// A custom role; `deleted` is when it was deleted.
#[derive(Drop)]
pub struct Role {
    pub name: RoleName,
    pub title: Text,
    pub stage: Stage,
    pub permissions: List<PermissionName>,
    pub deleted: Option<Moment>,
    pub set: u64,
}
