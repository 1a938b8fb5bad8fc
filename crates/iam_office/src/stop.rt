use iam_wire::FrameFault;

/// Why no further message is answered.
#[derive(Clone, Copy)]
pub enum Stop {
    /// The input ends behind the last message.
    AtEnd,
    /// The last message ends the conversation.
    AtLast,
    /// The input ends inside a message.
    Cut,
    /// What stands in the place of a message is none.
    Fault(FrameFault),
    /// More aren't answered.
    Enough,
    ReadFault,
    WriteFault,
    ClockFault,
    OutOfMemory,
}
