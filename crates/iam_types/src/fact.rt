use crate::{
    AllowPolicy, Boundary, BoundaryBinding, DenyPolicy, Edge, Node, Org, Role, TagBinding, TagKey,
    TagValue,
};
use iam_names::Email;

/// One fact of the tables, which is kept as one row.
#[derive(Drop)]
pub enum Fact {
    Org(Org),
    Node(Node),
    Key(TagKey),
    Value(TagValue),
    Tag(TagBinding),
    Group(Email),
    Edge(Edge),
    Role(Role),
    Allow(AllowPolicy),
    Deny(DenyPolicy),
    Boundary(Boundary),
    Bound(BoundaryBinding),
}

/// What a change does to one fact.
#[derive(Drop)]
pub enum FactChange {
    Put(Fact),
    Cut(Fact),
}
