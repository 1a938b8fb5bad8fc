use iam_text::{List, Text};

/// What a field of the project says. It is bad where it is repeated or isn't UTF-8.
#[derive(Drop)]
pub enum Field {
    Absent,
    One(Text),
    Bad,
}

/// A request.
#[derive(Drop)]
pub struct Message {
    pub method: Text,
    /// The target as it stands in the request line, not decoded.
    pub target: Text,
    /// `x-iam-caller`.
    pub caller: Field,
    /// `x-iam-min-revision`.
    pub floor: Field,
    /// Whether the message ends the conversation.
    pub last: bool,
    pub body: List<u8>,
}
