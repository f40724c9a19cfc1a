//! The command `replay`, over any source and sink.
ghost use Rattle.std.specs.Prelude.{◌≡◌, ◌<◌, ◌≤◌, ◌-◌, ◌^◌, ◌⊎◌, Some, length};
ghost use Rattle.script_commands.specs.Replays.{IsSaying};
ghost use Rattle.script_commands.specs.Verdicts.{VerdictIsWritten, VerdictIsCutShort, FaultIsWritten, FaultIsCutShort};

use crate::refusals::Refusal;
use crate::replaying::{Replayed, replay};
use crate::writes::{refuse, write, write_fault};
use script_lang::ScriptKind;
use std::alloc::Global;
use xl_base::{ReadError, Sink, Source, read_all};

// The bytes of a text with its report, at most.
const LIMIT: usize = 4294967295;

/// Reads a script with its report, and writes what comes of it. The result is the status: 0 and 6 the line of a verdict was
/// written, of a lawful report or of another; 1 the one fault line of a text that is not judged; 3 the source failed; 4 the
/// sink failed; 5 out of memory.
pub fn write_verdict<S: Source, K: Sink>(alloc: Global, source: &mut S, sink: &mut K) -> u8
    requires source { S.faults source.old < 2 ^ 64 - 1 }
    requires sink { K.faults sink.old < 2 ^ 64 - 1 }
    ensures statuses { (result ≡ 0) ⊎ ((result ≡ 1) ⊎ ((result ≡ 3) ⊎ ((result ≡ 4) ⊎ ((result ≡ 5) ⊎ (result ≡ 6))))) }
    ensures judged { (result ≡ 0) ⊎ (result ≡ 6) → VerdictIsWritten result (S.left source.old) (K.taken sink.old) (K.taken sink.new) }
    ensures refused { result ≡ 1 → FaultIsWritten (S.left source.old) (K.taken sink.old) (K.taken sink.new) }
    ensures read_fault { result ≡ 3 → (S.faults source.old < S.faults source.new) × (sink.new ≡ sink.old) }
    ensures write_fault { result ≡ 4 → K.faults sink.old < K.faults sink.new }
    ensures short { result ≡ 4 → VerdictIsCutShort (S.left source.old) (K.taken sink.old) (K.taken sink.new) ⊎ FaultIsCutShort (S.left source.old) (K.taken sink.old) (K.taken sink.new) }
    ensures memory { result ≡ 5 → sink.new ≡ sink.old }
{
    match read_all(alloc, source, LIMIT) {
        Ok(text) => {
            let said = replay(alloc, text.as_slice());
            let status = write_replayed(alloc, text.as_slice(), said, sink);
            drop(text);
            status
        }
        Err(ReadError::ReadFault) => 3,
        Err(ReadError::TooLong) => refuse(
            alloc,
            Refusal::OfScript {
                line: 0,
                kind: ScriptKind::TooLong,
            },
            sink,
        ),
        Err(ReadError::Mem) => 5,
    }
}

fn write_replayed<K: Sink>(alloc: Global, text: &[u8], replayed: Replayed, sink: &mut K) -> u8
    requires sink { K.faults sink.old < 2 ^ 64 - 1 }
    requires few { length text.now ≤ 4294967295 }
    requires said { IsSaying text.now replayed }
    ensures statuses { (result ≡ 0) ⊎ ((result ≡ 1) ⊎ ((result ≡ 4) ⊎ ((result ≡ 5) ⊎ (result ≡ 6)))) }
    ensures judged { (result ≡ 0) ⊎ (result ≡ 6) → VerdictIsWritten result (Some text.now) (K.taken sink.old) (K.taken sink.new) }
    ensures refused { result ≡ 1 → FaultIsWritten (Some text.now) (K.taken sink.old) (K.taken sink.new) }
    ensures no_fault { result ≡ 3 → ⊥ }
    ensures write_fault { result ≡ 4 → K.faults sink.old < K.faults sink.new }
    ensures short { result ≡ 4 → VerdictIsCutShort (Some text.now) (K.taken sink.old) (K.taken sink.new) ⊎ FaultIsCutShort (Some text.now) (K.taken sink.old) (K.taken sink.new) }
    ensures memory { result ≡ 5 → sink.new ≡ sink.old }
{
    match replayed {
        Replayed::Says(line, status) => write(sink, line.as_slice(), status),
        Replayed::NoReport(lines) => write_fault(alloc, lines, b"NoReport", sink),
        Replayed::Refused(refusal) => refuse(alloc, refusal, sink),
        Replayed::BadReport(line) => write_fault(alloc, line, b"BadReport", sink),
        Replayed::Mem => 5,
    }
}
