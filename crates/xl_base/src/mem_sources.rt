ghost use Rattle.std.specs.Prelude.{◌≡◌, min, length, take};

use crate::failures::Failed;
use crate::listed_calls::is_listed;
use crate::sources::Source;
use std::marker::Model;

/// A source over bytes in memory, which reports them and fails at listed calls.
#[derive(Drop)]
pub struct MemSource {
    bytes: Vec<u8>,
    at: usize,
    fail: Vec<u32>,
    calls: u64,
    faults: u64,
}

impl Model for MemSource {
    ghost use Rattle.std.specs.Prelude.{◌≤◌, length, drop};
    ghost use Rattle.xl_base.specs.Memory.{SourceState};

    ghost Value = { SourceState };

    ghost view = { λ s. record { left = drop s.at s.bytes.items; fail = s.fail.items; calls = s.calls; faults = s.faults } };

    ghost invariant = { λ s. s.at ≤ length s.bytes.items };
}

impl MemSource {
    ghost use Rattle.std.specs.Prelude.{◌≡◌};

    /// A source of the bytes. `fail` has the numbers of the reads that fail, counted from 1, in any
    /// order; a number may be listed twice.
    pub fn new(bytes: Vec<u8>, fail: Vec<u32>) -> MemSource
        ensures { result ≡ record { left = bytes.items; fail = fail.items; calls = 0; faults = 0 } }
    {
        MemSource {
            bytes,
            at: 0,
            fail,
            calls: 0,
            faults: 0,
        }
    }
}

impl Source for MemSource {
    ghost use Rattle.std.specs.Prelude.{◌≡◌, ◌≤◌, Some, IfOk, is_err, length};
    ghost use Rattle.std.specs.Io.{ReadsAtMost};
    ghost use Rattle.std.specs.Io.KnownBytes.{ReadConsumes};
    ghost use Rattle.xl_base.specs.Faults.{HasCause};
    ghost use Rattle.xl_base.specs.Memory.{read_fails, read_count, after_read};

    ghost left = { λ s. Some s.left };

    ghost faults = { λ s. s.faults };

    /// Reads as many bytes as fit the buffer and are left. It takes time for the bytes that it reads and
    /// for a comparison with each listed number.
    ///
    /// # Errors
    /// `Failed` exactly at the listed calls.
    #[tactic(auto, using(crate::proofs::Prefixes::prefix_read))]
    fn read(&mut self, buf: &mut [u8]) -> Result<usize, Failed>
        ensures bound { ReadsAtMost result buf.new }
        ensures bytes { ReadConsumes (Some self.old.left) (Some self.new.left) result buf.new }
        ensures rising { self.old.faults ≤ self.new.faults }
        ensures cause { HasCause self.old.faults self.new.faults result }
        ensures fails { is_err result ≡ read_fails self.old }
        ensures count { IfOk result (λ n. n ≡ read_count self.old (length buf.new)) }
        ensures after { self.new ≡ after_read self.old (length buf.new) }
    {
        self.calls = self.calls.saturating_add(1);
        if is_listed(self.fail.as_slice(), self.calls) {
            self.faults = self.faults.saturating_add(1);
            return Err(Failed);
        }
        let count = copy_prefix(&self.bytes[self.at..], buf);
        self.at += count;
        Ok(count)
    }
}

// Copies as many bytes as both the buffer and the list have, and returns how many.
fn copy_prefix(bytes: &[u8], buf: &mut [u8]) -> usize
    ensures count { result ≡ min (length buf.new) (length bytes.now) }
    ensures prefix { take result buf.new ≡ take result bytes.now }
{
    let count = buf.len().min(bytes.len());
    buf[..count].copy_from_slice(&bytes[..count]);
    count
}
