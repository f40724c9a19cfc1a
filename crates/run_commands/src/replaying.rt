//! The command `replay`, over any source and sink.
ghost use Rattle.std.specs.Prelude.{◌≡◌, ◌<◌, ◌-◌, ◌^◌, ◌⊎◌};
ghost use Rattle.run_commands.specs.CarriedOut.{Judged, JudgedUnwritten, RefusedLine, RefusedLineUnwritten};
ghost use Rattle.run_commands.specs.Written.{empty_rack};

use script_commands::write_verdict;
use std::alloc::Global;
use xl_base::{Sink, Source};

/// Reads a script with its report, and writes what comes of it. The result is the status, as of [`write_verdict`]. No rack is
/// needed.
pub fn replay<S: Source, K: Sink>(alloc: Global, source: &mut S, sink: &mut K) -> u8
    requires source { S.faults source.old < 2 ^ 64 - 1 }
    requires sink { K.faults sink.old < 2 ^ 64 - 1 }
    ensures statuses { (result ≡ 0) ⊎ ((result ≡ 1) ⊎ ((result ≡ 3) ⊎ ((result ≡ 4) ⊎ ((result ≡ 5) ⊎ (result ≡ 6))))) }
    ensures judged { (result ≡ 0) ⊎ (result ≡ 6) → Judged result (S.left source.old) (K.taken sink.old) (K.taken sink.new) empty_rack }
    ensures refused { result ≡ 1 → RefusedLine (S.left source.old) (K.taken sink.old) (K.taken sink.new) empty_rack }
    ensures read_fault { result ≡ 3 → (S.faults source.old < S.faults source.new) × (sink.new ≡ sink.old) }
    ensures write_fault { result ≡ 4 → K.faults sink.old < K.faults sink.new }
    ensures short { result ≡ 4 → JudgedUnwritten (S.left source.old) (K.taken sink.old) (K.taken sink.new) empty_rack ⊎ RefusedLineUnwritten (S.left source.old) (K.taken sink.old) (K.taken sink.new) empty_rack }
    ensures memory { result ≡ 5 → sink.new ≡ sink.old }
{
    write_verdict(alloc, source, sink)
}
