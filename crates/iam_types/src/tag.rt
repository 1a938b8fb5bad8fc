use iam_names::NodeId;
use iam_text::Text;

/// A tag key of the organisation.
#[derive(Drop)]
pub struct TagKey {
    pub number: u64,
    pub short: Text,
}

/// A value of the key with that number.
#[derive(Drop)]
pub struct TagValue {
    pub number: u64,
    pub key: u64,
    pub short: Text,
}

/// A value bound to a node.
#[derive(Clone, Copy, Debug, PartialEq, Eq)]
pub struct TagBinding {
    pub node: NodeId,
    pub value: u64,
}
