/// What is wrong with a message.
#[derive(Clone, Copy)]
pub enum FrameFault {
    BadHead,
    TooLarge { declared: u64 },
    NeedLength,
}

/// What a head says of the body: its length, or the first fault.
#[derive(Clone, Copy)]
pub enum Judgement {
    Sized(u64),
    Faulty(FrameFault),
}
