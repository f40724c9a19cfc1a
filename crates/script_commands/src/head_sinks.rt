use std::marker::Model;
use xl_base::{Failed, Sink};

// How many bytes are kept. A fault line has at most 42.
const KEPT: usize = 64;

/// A sink that hands each write on to another sink, and keeps the first 64 of the bytes that this one took.
#[derive(Drop)]
pub struct HeadSink<K> {
    inner: K,
    head: [u8; 64],
    len: usize,
}

// Contracts see the other sink and the bytes that are kept.
impl<K> Model for HeadSink<K> {
    ghost use Rattle.std.specs.Prelude.{◌≡◌, ◌≤◌, ℕ, List, length, take};

    ghost Value = { K × List ℕ };

    ghost view = { λ s. (s.inner, take s.len s.head) };

    ghost invariant = { λ s. (length s.head ≡ 64) × (s.len ≤ 64) };
}

impl<K> HeadSink<K> {
    ghost use Rattle.std.specs.Prelude.{◌≡◌, []};
    ghost use Rattle.script_commands.specs.Heads.{head_with, pushed};

    /// A sink over another one, which has kept nothing so far.
    pub fn new(inner: K) -> HeadSink<K>
        ensures { result ≡ (inner, []) }
    {
        HeadSink {
            inner,
            head: [0; 64],
            len: 0,
        }
    }

    /// The first 64 bytes that were taken, or all where there are fewer.
    pub fn head(&self) -> &[u8]
        ensures { result.now ≡ self.now.1 }
    {
        &self.head[..self.len]
    }

    // Keeps a byte, where there is room.
    fn push(&mut self, byte: u8)
        ensures { self.new ≡ (self.old.0, pushed self.old.1 byte) }
    {
        if self.len < KEPT {
            self.head[self.len] = byte;
            self.len += 1;
        }
    }

    // Keeps of these bytes what there is room for.
    fn keep(&mut self, bytes: &[u8])
        ensures { self.new ≡ (self.old.0, head_with self.old.1 bytes.now) }
    {
        for byte in bytes {
            self.push(*byte);
        }
    }
}

impl<K: Sink> Sink for HeadSink<K> {
    ghost use Rattle.std.specs.Prelude.{◌≡◌, ◌≤◌, take, IfOk, OnErr};
    ghost use Rattle.std.specs.Io.{WritesAtMost};
    ghost use Rattle.std.specs.Io.KnownBytes.{WriteAppends};
    ghost use Rattle.xl_base.specs.Faults.{HasCause};
    ghost use Rattle.xl_base.specs.Writes.{TakesSome};
    ghost use Rattle.script_commands.specs.Heads.{head_with};

    ghost taken = { λ s. K.taken s.0 };

    ghost faults = { λ s. K.faults s.0 };

    /// One write of the other sink.
    ///
    /// # Errors
    /// `Failed` where the other sink's write answers it; then no further byte is kept.
    fn write(&mut self, piece: &[u8]) -> Result<usize, Failed>
        ensures bound { WritesAtMost result piece.now }
        ensures some { TakesSome result piece.now }
        ensures bytes { WriteAppends (K.taken self.old.0) (K.taken self.new.0) result piece.now }
        ensures rising { K.faults self.old.0 ≤ K.faults self.new.0 }
        ensures cause { HasCause (K.faults self.old.0) (K.faults self.new.0) result }
        ensures kept { IfOk result (λ n. self.new.1 ≡ head_with self.old.1 (take n piece.now)) }
        ensures unkept { OnErr result (self.new.1 ≡ self.old.1) }
    {
        match self.inner.write(piece) {
            Ok(count) => {
                self.keep(&piece[..count]);
                Ok(count)
            }
            Err(failed) => Err(failed),
        }
    }
}
