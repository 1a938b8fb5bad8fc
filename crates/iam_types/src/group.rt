use iam_names::{Email, Leaf};

/// A direct membership of a group.
#[derive(Drop)]
pub struct Edge {
    pub group: Email,
    pub member: Leaf,
}
