use crate::{
    Binding, Boundary, BoundaryBinding, DenyPolicy, Explanation, Node, Refusal, Role, TagBinding,
    TagKey, TagValue,
};
use iam_names::{Email, Leaf, PermissionName};
use iam_text::{List, Text};

/// A thing with all that a reply shows of it, so that its body needs no tables.
#[derive(Drop)]
pub enum Resource {
    Organization {
        number: u64,
        domain: Text,
        customer: Text,
    },
    Node(Node),
    TagKey {
        organization: u64,
        key: TagKey,
    },
    TagValue {
        organization: u64,
        key_short: Text,
        value: TagValue,
    },
    TagBinding(TagBinding),
    DenyPolicy(DenyPolicy),
    Boundary {
        organization: u64,
        boundary: Boundary,
    },
    BoundaryBinding {
        organization: u64,
        binding: BoundaryBinding,
    },
    /// What is shown of a thing that is gone.
    Nothing,
}

/// What a call comes to in a state.
#[derive(Drop)]
pub enum Answer {
    Refused(Refusal),
    Resource(Resource),
    /// A finished long-running operation, with the number of the change that it made.
    Operation {
        revision: u64,
        response: Resource,
    },
    Folders(List<Node>),
    Projects(List<Node>),
    TagBindings(List<TagBinding>),
    DenyPolicies(List<DenyPolicy>),
    /// The permissions that are allowed, in the order asked.
    Permissions(List<PermissionName>),
    /// A policy as it is shown in this version; `set` is its etag.
    Policy {
        bindings: List<Binding>,
        set: u64,
        version: u64,
    },
    Group {
        email: Email,
        members: List<Leaf>,
    },
    Role(Role),
    Explanation {
        organization: u64,
        explanation: Explanation,
    },
}
