use std::alloc::AllocError;

/// Memory was refused.
#[derive(Clone, Copy, Debug, PartialEq, Eq, PartialOrd, Ord)]
pub struct OutOfMemory;

impl From<AllocError> for OutOfMemory {
    fn from(_: AllocError) -> OutOfMemory {
        OutOfMemory
    }
}

/// Lets a value go. A function that drops a value of many kinds by itself is proved anew for each kind.
pub fn let_go<T: Drop>(_value: T) {}
