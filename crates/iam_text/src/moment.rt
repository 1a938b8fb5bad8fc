/// Seconds since 1970-01-01T00:00:00Z, as RFC 3339 counts them: no leap seconds.
#[derive(Clone, Copy, Debug, PartialEq, Eq, PartialOrd, Ord)]
pub struct Moment(pub i64);
