use iam_json::{Call, ErrorReply};
use iam_names::Caller;

/// What a message alone gives.
#[derive(Drop)]
pub enum Asked {
    /// The first refusal of the message: of its path, its method, its caller, its body or its floor, in this order.
    Refused(ErrorReply),
    /// The floor is the revision that has to be there at least, where one is asked for.
    Given {
        caller: Caller,
        floor: Option<u64>,
        call: Call,
    },
}
