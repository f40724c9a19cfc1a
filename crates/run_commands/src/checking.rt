//! The command `check`, over any source and sink.
ghost use Rattle.std.specs.Prelude.{◌≡◌, ◌<◌, ◌-◌, ◌^◌, ◌⊎◌};
ghost use Rattle.run_commands.specs.CarriedOut.{Checked, CheckedUnwritten, Refused, RefusedUnwritten};
ghost use Rattle.run_commands.specs.Written.{empty_rack};

use script_commands::{check_read, read_script, refuse_all};
use std::alloc::Global;
use xl_base::{Sink, Source};

/// Reads a script, and writes the line of what it has, or that of its refusal. The result is the status: 0 the one was written,
/// and 1 the other; 3 the source failed; 4 the sink failed; 5 out of memory. No rack is needed.
pub fn check<S: Source, K: Sink>(alloc: Global, source: &mut S, sink: &mut K) -> u8
    requires source { S.faults source.old < 2 ^ 64 - 1 }
    requires sink { K.faults sink.old < 2 ^ 64 - 1 }
    ensures statuses { (result ≡ 0) ⊎ ((result ≡ 1) ⊎ ((result ≡ 3) ⊎ ((result ≡ 4) ⊎ (result ≡ 5)))) }
    ensures checked { result ≡ 0 → Checked (S.left source.old) (K.taken sink.old) (K.taken sink.new) empty_rack }
    ensures refused { result ≡ 1 → Refused (S.left source.old) (K.taken sink.old) (K.taken sink.new) empty_rack }
    ensures read_fault { result ≡ 3 → (S.faults source.old < S.faults source.new) × (sink.new ≡ sink.old) }
    ensures write_fault { result ≡ 4 → K.faults sink.old < K.faults sink.new }
    ensures short { result ≡ 4 → CheckedUnwritten (S.left source.old) (K.taken sink.old) (K.taken sink.new) empty_rack ⊎ RefusedUnwritten (S.left source.old) (K.taken sink.old) (K.taken sink.new) empty_rack }
    ensures memory { result ≡ 5 → sink.new ≡ sink.old }
{
    match read_script(alloc, source) {
        Ok(read) => {
            let status = check_read(alloc, &read.script, sink);
            drop(read);
            status
        }
        Err(not_read) => refuse_all(alloc, not_read, sink),
    }
}
