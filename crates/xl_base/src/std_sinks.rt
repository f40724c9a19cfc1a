use crate::failures::Failed;
use crate::sinks::Sink;
use std::io::Write;
use std::marker::Model;

/// A sink over a writer of std. It counts as a fault each error of the writer, and each write that took
/// nothing of a piece that is not empty. It reports the bytes that it took where the writer reports them,
/// as one into a vector does; standard output reports none.
#[derive(Drop)]
pub struct StdSink<W> {
    inner: W,
    faults: u64,
}

// Contracts see the writer and the count of faults.
impl<W> Model for StdSink<W> {
    ghost use Rattle.std.specs.Prelude.{ℕ};

    ghost Value = { W × ℕ };

    ghost view = { λ s. (s.inner, s.faults) };
}

impl<W: Write> StdSink<W> {
    ghost use Rattle.std.specs.Prelude.{◌≡◌};

    /// A sink that passes its bytes to the writer, with no fault so far.
    pub fn new(inner: W) -> StdSink<W>
        ensures { result ≡ (inner, 0) }
    {
        StdSink { inner, faults: 0 }
    }
}

impl<W: Write> Sink for StdSink<W> {
    ghost use Rattle.std.specs.Prelude.{◌≡◌, ◌≤◌};
    ghost use Rattle.std.specs.Io.{WritesAtMost};
    ghost use Rattle.std.specs.Io.KnownBytes.{WriteAppends};
    ghost use Rattle.xl_base.specs.Faults.{HasCause, faults_after};
    ghost use Rattle.xl_base.specs.Writes.{TakesSome};

    ghost taken = { λ s. W.contents s.0 };

    ghost faults = { λ s. s.1 };

    /// One write of the writer. The count of faults rises by one exactly where it answers `Failed`, at
    /// most to 2^64 - 1, and stays the same where bytes were taken.
    ///
    /// # Errors
    /// `Failed` where the writer answers an error or takes nothing of a piece that is not empty. Where the
    /// writer reports its bytes, a write that it took bytes of never fails.
    fn write(&mut self, piece: &[u8]) -> Result<usize, Failed>
        ensures bound { WritesAtMost result piece.now }
        ensures some { TakesSome result piece.now }
        ensures bytes { WriteAppends (W.contents self.old.0) (W.contents self.new.0) result piece.now }
        ensures rising { self.old.1 ≤ self.new.1 }
        ensures cause { HasCause self.old.1 self.new.1 result }
        ensures count { self.new.1 ≡ faults_after self.old.1 result }
    {
        match self.inner.write(piece) {
            Ok(count) if count > 0 || piece.is_empty() => Ok(count),
            _ => {
                self.faults = self.faults.saturating_add(1);
                Err(Failed)
            }
        }
    }
}
