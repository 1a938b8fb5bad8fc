use iam_text::{List, Text};

/// A value. A time is in nanoseconds since 1970-01-01T00:00:00Z, a length of time in nanoseconds.
#[derive(Drop)]
pub enum Value {
    Bool(bool),
    Int(i64),
    Str(Text),
    Time(i128),
    Length(i128),
    Many(List<Value>),
}

/// Why an expression has no value.
#[derive(Clone, Copy)]
pub enum EvalFault {
    /// An integer outside 64 bits.
    Overflow,
    ZeroDivisor,
    /// A time outside the years 1 to 9999, or a length of time beyond 315,576,000,000 seconds.
    Range,
    /// A text that `timestamp` doesn't read.
    BadTime,
    /// A text that `duration` doesn't read.
    BadDuration,
    /// A tag key that the context doesn't know.
    UnknownTag,
}

/// What an expression comes to in a context.
#[derive(Drop)]
pub enum Outcome {
    Given(Value),
    Stopped(EvalFault),
}

/// What a condition comes to in a context.
#[derive(Clone, Copy)]
pub enum Verdict {
    True,
    False,
    Error,
}
