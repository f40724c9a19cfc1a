ghost use Rattle.std.specs.Prelude.{ℕ, List, ◌≤◌};
ghost use Rattle.std.specs.declared.option.Option.{Option};
ghost use Rattle.std.specs.Io.{ReadsAtMost};
ghost use Rattle.std.specs.Io.KnownBytes.{ReadConsumes};
ghost use Rattle.xl_base.specs.Faults.{HasCause};

use crate::failures::Failed;

/// Where bytes come from.
///
/// A source may report the bytes that are left in it, and then each read gives the next of them. Its
/// count of faults never falls.
pub trait Source {
    // The bytes that are left, where the source reports them.
    ghost left: { Self → Option (List ℕ) };

    // The faults so far.
    ghost faults: { Self → ℕ };

    /// Reads bytes into the buffer, from its start, and returns how many. A read of no byte into a buffer
    /// that is not empty is the end.
    ///
    /// # Errors
    /// `Failed`, with nothing read, only where the count of faults rose in this call or was 2^64 - 1, the
    /// last value of a counter.
    fn read(&mut self, buf: &mut [u8]) -> Result<usize, Failed>
        ensures bound { ReadsAtMost result buf.new }
        ensures bytes { ReadConsumes (left self.old) (left self.new) result buf.new }
        ensures rising { faults self.old ≤ faults self.new }
        ensures cause { HasCause (faults self.old) (faults self.new) result };
}
