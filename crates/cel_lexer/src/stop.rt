ghost use Rattle.std.specs.Prelude.{◌≡◌};
ghost use Rattle.cel_lexer.specs.declared.stop.Stop.TheVariants as variant;

/// The first fault of a text that is not cut into tokens, at its offset in bytes.
#[derive(Clone, Copy, Debug)]
pub enum CutFault {
    BadToken(u32),
    /// A reserved word, or `null`.
    ReservedWord(u32),
}

/// Why no tokens are given.
#[derive(Clone, Copy, Debug)]
pub enum Stop {
    Fault(CutFault),
    OutOfMemory,
}

impl From<iam_text::OutOfMemory> for Stop {
    ghost from_gives = { λ _ stop. stop ≡ variant.OutOfMemory };

    fn from(_: iam_text::OutOfMemory) -> Stop {
        Stop::OutOfMemory
    }
}
