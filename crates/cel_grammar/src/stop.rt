ghost use Rattle.std.specs.Prelude.{◌≡◌};
ghost use Rattle.cel_grammar.specs.declared.stop.Stop.TheVariants.{OutOfMemory};

use iam_text::OutOfMemory as Refused;
use std::alloc::AllocError;

/// Why no tree is given.
#[derive(Clone, Copy)]
pub enum Stop {
    OutOfMemory,
    NotAnExpression,
}

impl From<AllocError> for Stop {
    ghost from_gives = { λ _ e. e ≡ OutOfMemory };

    fn from(_: AllocError) -> Stop {
        Stop::OutOfMemory
    }
}

impl From<Refused> for Stop {
    ghost from_gives = { λ _ e. e ≡ OutOfMemory };

    fn from(_: Refused) -> Stop {
        Stop::OutOfMemory
    }
}
