use crate::failures::Failed;
use crate::listed_calls::is_listed;
use crate::sinks::Sink;
use std::alloc::{AllocError, Global};
use std::marker::Model;

/// A sink in memory with room for a fixed number of bytes, which reports what it took and fails at listed
/// calls.
#[derive(Drop)]
pub struct MemSink {
    bytes: Vec<u8>,
    room: usize,
    fail: Vec<u32>,
    calls: u64,
    faults: u64,
}

impl Model for MemSink {
    ghost use Rattle.std.specs.Prelude.{◌≤◌, vec_capacity, vec_len};
    ghost use Rattle.xl_base.specs.Memory.{SinkState};

    ghost Value = { SinkState };

    ghost view = { λ s. record { taken = s.bytes.items; room = s.room; fail = s.fail.items; calls = s.calls; faults = s.faults } };

    ghost invariant = { λ s. (vec_len s.bytes ≤ s.room) × (s.room ≤ vec_capacity s.bytes) };
}

impl MemSink {
    ghost use Rattle.std.specs.Prelude.{◌≡◌, [], IfOk};

    /// A sink with room for `room` bytes, all of which is allocated now. `fail` has the numbers of the
    /// writes that fail, counted from 1, in any order; a number may be listed twice.
    ///
    /// # Errors
    /// Out of memory.
    pub fn new(alloc: Global, room: usize, fail: Vec<u32>) -> Result<MemSink, AllocError>
        ensures { IfOk result (λ s. s ≡ record { taken = []; room = room; fail = fail.items; calls = 0; faults = 0 }) }
    {
        let bytes = Vec::with_capacity(alloc, room)?;
        Ok(MemSink {
            bytes,
            room,
            fail,
            calls: 0,
            faults: 0,
        })
    }

    /// The bytes taken so far.
    pub fn bytes(&self) -> &[u8]
        ensures { result.now ≡ self.now.taken }
    {
        self.bytes.as_slice()
    }
}

impl Sink for MemSink {
    ghost use Rattle.std.specs.Prelude.{◌≡◌, ◌≤◌, Some, IfOk, is_err};
    ghost use Rattle.std.specs.Io.{WritesAtMost};
    ghost use Rattle.std.specs.Io.KnownBytes.{WriteAppends};
    ghost use Rattle.xl_base.specs.Faults.{HasCause};
    ghost use Rattle.xl_base.specs.Memory.{write_fails, write_count, after_write};
    ghost use Rattle.xl_base.specs.Writes.{TakesSome};

    ghost taken = { λ s. Some s.taken };

    ghost faults = { λ s. s.faults };

    /// Takes as many bytes of the piece as fit. It takes time for these bytes and for a comparison with
    /// each listed number.
    ///
    /// # Errors
    /// `Failed` exactly at the listed calls and where the piece is not empty and no byte of it fits.
    fn write(&mut self, piece: &[u8]) -> Result<usize, Failed>
        ensures bound { WritesAtMost result piece.now }
        ensures some { TakesSome result piece.now }
        ensures bytes { WriteAppends (Some self.old.taken) (Some self.new.taken) result piece.now }
        ensures rising { self.old.faults ≤ self.new.faults }
        ensures cause { HasCause self.old.faults self.new.faults result }
        ensures fails { is_err result ≡ write_fails self.old piece.now }
        ensures count { IfOk result (λ n. n ≡ write_count self.old piece.now) }
        ensures after { self.new ≡ after_write self.old piece.now }
    {
        self.calls = self.calls.saturating_add(1);
        let count = piece.len().min(self.room - self.bytes.len());
        let is_full = !piece.is_empty() && self.room <= self.bytes.len();
        if is_listed(self.fail.as_slice(), self.calls) || is_full {
            self.faults = self.faults.saturating_add(1);
            return Err(Failed);
        }
        match self.bytes.extend_from_slice(&piece[..count]) {
            Ok(()) => Ok(count),
            Err(_) => unreachable!(),
        }
    }
}
