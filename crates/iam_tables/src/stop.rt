// Why facts give no tables.
use iam_text::OutOfMemory;

/// The first rule that the facts break, by its number, or memory was refused.
#[derive(Clone, Copy)]
pub enum TablesStop {
    Inconsistent { rule: u8 },
    OutOfMemory,
}

impl From<OutOfMemory> for TablesStop {
    ghost use Rattle.std.specs.Prelude.{◌≡◌};
    ghost use Rattle.iam_tables.specs.declared.stop.TablesStop.TheVariants as variant;

    ghost from_gives = { λ _ stop. stop ≡ variant.OutOfMemory };

    fn from(_: OutOfMemory) -> TablesStop {
        TablesStop::OutOfMemory
    }
}
