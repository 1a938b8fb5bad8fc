ghost use Rattle.std.specs.Prelude.{◌≡◌, []};

use crate::{List, Text};
use std::alloc::Global;

/// Time zones by name, each with the bytes of its TZif file (RFC 8536).
#[derive(Drop)]
pub struct Zones {
    pub named: List<(Text, List<u8>)>,
}

impl Zones {
    pub fn none(alloc: Global) -> Zones
        ensures { result.named ≡ [] }
    {
        Zones {
            named: List::new(alloc),
        }
    }
}
