use crate::{
    AllowPolicy, Boundary, BoundaryBinding, DenyPolicy, Edge, Node, Org, Role, TagBinding, TagKey,
    TagValue,
};
use iam_names::{Email, Member};
use iam_text::{List, Text};

/// All that is known, each list in the order of its rows' names.
#[derive(Drop)]
pub struct Tables {
    pub org: Org,
    pub nodes: List<Node>,
    pub keys: List<TagKey>,
    pub values: List<TagValue>,
    pub tags: List<TagBinding>,
    pub groups: List<Email>,
    pub edges: List<Edge>,
    pub roles: List<Role>,
    pub allows: List<AllowPolicy>,
    pub denies: List<DenyPolicy>,
    pub boundaries: List<Boundary>,
    pub bounds: List<BoundaryBinding>,
}

/// What an organisation starts from: its number, its domain, its customer id and its administrator.
#[derive(Drop)]
pub struct Opening {
    pub number: u64,
    pub domain: Text,
    pub customer: Text,
    pub admin: Member,
}
