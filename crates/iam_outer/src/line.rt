// A source of bytes, a sink for bytes, and both on one line.
ghost use Rattle.std.specs.Prelude.{◌≡◌, ◌<◌, ℕ, List, None, length};
ghost use Rattle.std.specs.declared.option.Option.{Option};
ghost use Rattle.std.specs.Io.{ReadsAtMost};
ghost use Rattle.std.specs.Io.KnownBytes.{ReadConsumes, WriteAppends};
ghost use Rattle.iam_outer.specs.Causes.{HasCause, TakesSome};

/// The outside failed, and counted it.
#[derive(Clone, Copy, PartialEq, Eq)]
pub struct Failed;

/// Where bytes come from.
pub trait Source {
    /// The bytes that reads will give from here on, where the source tells them.
    ghost left: { Self → Option (List ℕ) };

    /// How many reads failed.
    ghost read_faults: { Self → ℕ };

    /// Of a line, what it has taken by writes and its count for writing.
    ghost sink_side: { Self → Option (List ℕ) × ℕ } = { λ _. (None, 0) };

    /// Moves the next bytes into the first places of `into`, and says how many. None are left where it says 0.
    fn read(&mut self, into: &mut [u8]) -> Result<usize, Failed>
        requires { 0 < length into.old }
        ensures bound { ReadsAtMost result into.new }
        ensures bytes { ReadConsumes (left self.old) (left self.new) result into.new }
        ensures cause { HasCause (read_faults self.old) (read_faults self.new) result }
        ensures apart { sink_side self.new ≡ sink_side self.old };
}

/// Where bytes go.
pub trait Sink {
    /// The bytes that writes have given, where the sink tells them.
    ghost taken: { Self → Option (List ℕ) };

    /// How many writes failed.
    ghost write_faults: { Self → ℕ };

    /// Of a line, what it has left to read and its count for reading.
    ghost source_side: { Self → Option (List ℕ) × ℕ } = { λ _. (None, 0) };

    /// Takes the first bytes of `piece`, and says how many.
    fn write(&mut self, piece: &[u8]) -> Result<usize, Failed>
        requires { 0 < length piece.now }
        ensures some { TakesSome result piece.now }
        ensures bytes { WriteAppends (taken self.old) (taken self.new) result piece.now }
        ensures cause { HasCause (write_faults self.old) (write_faults self.new) result }
        ensures apart { source_side self.new ≡ source_side self.old };
}

/// A source and a sink that leave each other alone.
pub trait Line: Source + Sink {
    ghost sink_is_apart: { (s : Self) → Self.sink_side s ≡ (Self.taken s, Self.write_faults s) };

    ghost source_is_apart: { (s : Self) → Self.source_side s ≡ (Self.left s, Self.read_faults s) };
}

/// A read of a line, and what it leaves alone.
pub fn receive<L: Line>(line: &mut L, into: &mut [u8]) -> Result<usize, Failed>
    requires { 0 < length into.old }
    ensures bound { ReadsAtMost result into.new }
    ensures bytes { ReadConsumes (L.left line.old) (L.left line.new) result into.new }
    ensures cause { HasCause (L.read_faults line.old) (L.read_faults line.new) result }
    ensures taken { L.taken line.new ≡ L.taken line.old }
    ensures write_faults { L.write_faults line.new ≡ L.write_faults line.old }
{
    line.read(into)
}

/// A write to a line, and what it leaves alone.
pub fn send<L: Line>(line: &mut L, piece: &[u8]) -> Result<usize, Failed>
    requires { 0 < length piece.now }
    ensures some { TakesSome result piece.now }
    ensures bytes { WriteAppends (L.taken line.old) (L.taken line.new) result piece.now }
    ensures cause { HasCause (L.write_faults line.old) (L.write_faults line.new) result }
    ensures left { L.left line.new ≡ L.left line.old }
    ensures read_faults { L.read_faults line.new ≡ L.read_faults line.old }
{
    line.write(piece)
}
