use iam_names::{PermissionName, RoleName};
use iam_text::{List, Text};

/// The lowest kind of node that a permission speaks of.
#[derive(Clone, Copy, Debug, PartialEq, Eq)]
pub enum Level {
    Organization,
    Folder,
    Project,
}

/// A permission; `host` is the service's host in its deny spelling, and `least` the least enforcement
/// version of a boundary policy that blocks it, 0 where none does.
#[derive(Drop)]
pub struct Permit {
    pub name: PermissionName,
    pub host: Text,
    pub level: Level,
    pub deniable: bool,
    pub least: u8,
}

/// A predefined role.
#[derive(Drop)]
pub struct Preset {
    pub role: RoleName,
    pub permissions: List<PermissionName>,
}
