// How the trying of rules stops.
use iam_text::OutOfMemory;
use iam_types::Refusal;

/// Why an entry isn't accepted: a rule refuses it, or memory was refused.
#[derive(Drop)]
pub enum AdmitStop {
    Refused(Refusal),
    OutOfMemory,
}

impl From<OutOfMemory> for AdmitStop {
    ghost use Rattle.std.specs.Prelude.{◌≡◌};
    ghost use Rattle.iam_admit.specs.declared.stop.AdmitStop.TheVariants as variant;

    ghost from_gives = { λ _ stop. stop ≡ variant.OutOfMemory };

    fn from(_: OutOfMemory) -> AdmitStop {
        AdmitStop::OutOfMemory
    }
}
