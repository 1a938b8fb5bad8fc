use iam_names::{NodeId, RoleName};
use iam_text::{List, Text};

/// What a condition came to, or that there is none.
#[derive(Clone, Copy, Debug, PartialEq, Eq)]
pub enum Shown {
    Absent,
    True,
    False,
    Error,
}

/// An allow binding of the path, each of its parts looked at by itself.
#[derive(Drop)]
pub struct AllowLine {
    pub node: NodeId,
    pub place: u32,
    pub role: RoleName,
    pub role_permission: bool,
    pub membership: bool,
    pub condition: Shown,
}

/// A deny rule of the path.
#[derive(Drop)]
pub struct DenyLine {
    pub policy: Text,
    pub rule: u32,
    pub principal: bool,
    pub exception: bool,
    pub permission: bool,
    pub condition: Shown,
}

/// A boundary binding whose set holds the caller.
#[derive(Drop)]
pub struct BoundLine {
    pub binding: Text,
    pub version: bool,
    pub resource: bool,
    pub condition: Shown,
}

/// Why a query is decided as it is.
#[derive(Drop)]
pub struct Explanation {
    pub bounds: List<BoundLine>,
    pub denies: List<DenyLine>,
    pub allows: List<AllowLine>,
    pub eligible: bool,
    pub denied: bool,
    pub granted: bool,
    pub can_access: bool,
}
