/// Where a condition stands.
#[derive(Clone, Copy)]
pub enum Place {
    Allow,
    Deny,
    Binding,
}

/// The kind of a single value. A length is a length of time.
#[derive(Clone, Copy, PartialEq, Eq)]
pub enum Base {
    Bool,
    Int,
    Str,
    Time,
    Length,
}

/// The kind of a value, which is a single one or a list of such.
#[derive(Clone, Copy, PartialEq, Eq)]
pub enum Kind {
    One(Base),
    Many(Base),
}
