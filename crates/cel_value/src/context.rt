use iam_text::{List, Moment, Text};

/// The tag value that a key has on the resource.
#[derive(Drop)]
pub struct ValueFact {
    pub number: u64,
    pub short: Text,
}

/// A tag key of the organisation, by its number and its name `ORG/short`.
#[derive(Drop)]
pub struct KeyFact {
    pub number: u64,
    pub name: Text,
    /// The value in force, if there is one.
    pub value: Option<ValueFact>,
}

/// What a condition may ask of a request.
#[derive(Drop)]
pub struct Context {
    pub resource_kind: Text,
    pub resource_service: Text,
    pub resource_name: Text,
    pub moment: Moment,
    pub keys: List<KeyFact>,
    pub principal_kind: Text,
    pub principal_subject: Text,
    /// The roles whose grants a policy's change modifies.
    pub modified: List<Text>,
}
