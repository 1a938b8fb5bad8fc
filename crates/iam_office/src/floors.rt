// The revision that a message asks for at least.
ghost use Rattle.std.specs.Prelude.{◌≡◌, ◌≤◌};
ghost use Rattle.iam_office.specs.Handled.{ReachTold};
ghost use Rattle.iam_office.specs.Office.{Leads};

use crate::office::{FloorStop, Office};
use std::alloc::Global;

/// Why a floor isn't reached.
#[derive(Clone, Copy)]
pub enum Unreached {
    Ahead { asked: u64, known: u64 },
    OutOfMemory,
}

/// Goes on to the floor, if one is asked for.
pub fn reach<O: Office>(alloc: Global, office: &mut O, floor: Option<u64>) -> Result<(), Unreached>
    ensures told { Leads O.stands office.old office.new (ReachTold O.alone floor result) }
    ensures later { O.office_faults office.old ≤ O.office_faults office.new }
    ensures accepted { O.accepted office.new ≡ O.accepted office.old }
    ensures same { O.same office.old office.new }
{
    match floor {
        None => Ok(()),
        Some(asked) => match office.at_least(alloc, asked) {
            Ok(()) => Ok(()),
            Err(FloorStop::Ahead { known }) => Err(Unreached::Ahead { asked, known }),
            Err(FloorStop::OutOfMemory) => Err(Unreached::OutOfMemory),
        },
    }
}
