ghost use Rattle.std.specs.Prelude.{ℕ, List, ◌≤◌};
ghost use Rattle.std.specs.declared.option.Option.{Option};
ghost use Rattle.std.specs.Io.{WritesAtMost};
ghost use Rattle.std.specs.Io.KnownBytes.{WriteAppends};
ghost use Rattle.xl_base.specs.Faults.{HasCause};
ghost use Rattle.xl_base.specs.Writes.{TakesSome};

use crate::failures::Failed;

/// Where bytes go.
///
/// A sink may report the bytes that it took, and then each write adds to their end. Its count of faults
/// never falls.
pub trait Sink {
    // The bytes taken so far, where the sink reports them.
    ghost taken: { Self → Option (List ℕ) };

    // The faults so far.
    ghost faults: { Self → ℕ };

    /// Takes a prefix of the piece and returns its length, which is at least one where the piece is not
    /// empty.
    ///
    /// # Errors
    /// `Failed`, with nothing taken, only where the count of faults rose in this call or was 2^64 - 1, the
    /// last value of a counter.
    fn write(&mut self, piece: &[u8]) -> Result<usize, Failed>
        ensures bound { WritesAtMost result piece.now }
        ensures some { TakesSome result piece.now }
        ensures bytes { WriteAppends (taken self.old) (taken self.new) result piece.now }
        ensures rising { faults self.old ≤ faults self.new }
        ensures cause { HasCause (faults self.old) (faults self.new) result };
}
