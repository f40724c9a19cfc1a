use crate::failures::Failed;
use crate::sources::Source;
use std::io::Read;
use std::marker::Model;

/// A source over a reader of std. It counts each error of the reader as a fault, and reports the bytes that
/// are left where the reader reports them, as one over bytes in memory does; standard input reports none.
#[derive(Drop)]
pub struct StdSource<R> {
    inner: R,
    faults: u64,
}

// Contracts see the reader and the count of faults.
impl<R> Model for StdSource<R> {
    ghost use Rattle.std.specs.Prelude.{ℕ};

    ghost Value = { R × ℕ };

    ghost view = { λ s. (s.inner, s.faults) };
}

impl<R: Read> StdSource<R> {
    ghost use Rattle.std.specs.Prelude.{◌≡◌};

    /// A source of what the reader gives, with no fault so far.
    pub fn new(inner: R) -> StdSource<R>
        ensures { result ≡ (inner, 0) }
    {
        StdSource { inner, faults: 0 }
    }
}

impl<R: Read> Source for StdSource<R> {
    ghost use Rattle.std.specs.Prelude.{◌≡◌, ◌≤◌};
    ghost use Rattle.std.specs.Io.{ReadsAtMost};
    ghost use Rattle.std.specs.Io.KnownBytes.{ReadConsumes};
    ghost use Rattle.xl_base.specs.Faults.{HasCause, faults_after};

    ghost left = { λ s. R.remaining s.0 };

    ghost faults = { λ s. s.1 };

    /// One read of the reader. The count of faults rises by one exactly where it answers `Failed`, at most
    /// to 2^64 - 1, and stays the same where it gives bytes or the end.
    ///
    /// # Errors
    /// `Failed` where the reader answers an error. Where the reader reports its bytes, a read that took
    /// bytes of it never fails.
    fn read(&mut self, buf: &mut [u8]) -> Result<usize, Failed>
        ensures bound { ReadsAtMost result buf.new }
        ensures bytes { ReadConsumes (R.remaining self.old.0) (R.remaining self.new.0) result buf.new }
        ensures rising { self.old.1 ≤ self.new.1 }
        ensures cause { HasCause self.old.1 self.new.1 result }
        ensures count { self.new.1 ≡ faults_after self.old.1 result }
    {
        match self.inner.read(buf) {
            Ok(count) => Ok(count),
            Err(_) => {
                self.faults = self.faults.saturating_add(1);
                Err(Failed)
            }
        }
    }
}
