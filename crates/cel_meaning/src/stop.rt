ghost use Rattle.std.specs.Prelude.{◌≡◌};
ghost use Rattle.cel_meaning.specs.declared.stop.Stop.TheVariants as variant;

use cel_value::EvalFault;
use std::alloc::AllocError;

/// What is answered where the parts are not of the kinds that a form asks for: no condition comes to it so.
pub const NO_VALUE: EvalFault = EvalFault::UnknownTag;

/// Why an expression gives no value.
#[derive(Clone, Copy)]
pub enum Stop {
    Fault(EvalFault),
    OutOfMemory,
}

impl From<EvalFault> for Stop {
    ghost from_gives = { λ fault stop. stop ≡ variant.Fault fault };

    fn from(fault: EvalFault) -> Stop {
        Stop::Fault(fault)
    }
}

impl From<iam_text::OutOfMemory> for Stop {
    ghost from_gives = { λ _ stop. stop ≡ variant.OutOfMemory };

    fn from(_: iam_text::OutOfMemory) -> Stop {
        Stop::OutOfMemory
    }
}

impl From<AllocError> for Stop {
    ghost from_gives = { λ _ stop. stop ≡ variant.OutOfMemory };

    fn from(_: AllocError) -> Stop {
        Stop::OutOfMemory
    }
}
