//! What is written of a script that is not run.
ghost use Rattle.std.specs.Prelude.{◌≡◌, ◌≢◌, ◌<◌, ◌-◌, ◌^◌, ◌⊎◌};
ghost use Rattle.std.specs.Io.KnownBytes.{Appends};
ghost use Rattle.xl_base.specs.Writes.{WrotePrefix};
ghost use Rattle.script_lang.specs.Accepted.{IsAccepted as KeepsLimits};
ghost use Rattle.script_commands.specs.Checks.{check_text};
ghost use Rattle.script_commands.specs.Readings.{IsRefusal};
ghost use Rattle.script_commands.specs.Refusals.{fault_of, fault_text};
ghost use Rattle.script_commands.specs.declared.readings.NotRead.TheVariants as why;

use crate::checks::check_line;
use crate::readings::NotRead;
use crate::refusals::{Refusal, fault_line, report_fault};
use script_lang::Script;
use std::alloc::Global;
use xl_base::{Sink, write_all};

/// Writes a text, and gives the status: this one, or 4 where the sink failed.
pub fn write<K: Sink>(sink: &mut K, text: &[u8], status: u8) -> u8
    requires sink { K.faults sink.old < 2 ^ 64 - 1 }
    requires other { status ≢ 4 }
    ensures statuses { (result ≡ status) ⊎ (result ≡ 4) }
    ensures wrote { result ≡ status → Appends (K.taken sink.old) (K.taken sink.new) text.now }
    ensures write_fault { result ≡ 4 → (K.faults sink.old < K.faults sink.new) × WrotePrefix (K.taken sink.old) (K.taken sink.new) text.now }
{
    match write_all(sink, text) {
        Ok(()) => status,
        Err(_) => 4,
    }
}

/// Writes the line of a refusal, and gives the status: 1; 4 where the sink failed; 5 out of memory.
pub fn refuse<K: Sink>(alloc: Global, refusal: Refusal, sink: &mut K) -> u8
    requires { K.faults sink.old < 2 ^ 64 - 1 }
    ensures statuses { (result ≡ 1) ⊎ ((result ≡ 4) ⊎ (result ≡ 5)) }
    ensures refused { result ≡ 1 → Appends (K.taken sink.old) (K.taken sink.new) (fault_text refusal) }
    ensures write_fault { result ≡ 4 → (K.faults sink.old < K.faults sink.new) × WrotePrefix (K.taken sink.old) (K.taken sink.new) (fault_text refusal) }
    ensures memory { result ≡ 5 → sink.new ≡ sink.old }
{
    match fault_line(alloc, refusal) {
        Ok(text) => write(sink, text.as_slice(), 1),
        Err(_) => 5,
    }
}

/// Writes the fault line of a text with its report, and gives the status as [`refuse`] does.
pub fn write_fault<K: Sink>(alloc: Global, line: u32, name: &[u8], sink: &mut K) -> u8
    requires { K.faults sink.old < 2 ^ 64 - 1 }
    ensures statuses { (result ≡ 1) ⊎ ((result ≡ 4) ⊎ (result ≡ 5)) }
    ensures refused { result ≡ 1 → Appends (K.taken sink.old) (K.taken sink.new) (fault_of line name.now) }
    ensures write_fault { result ≡ 4 → (K.faults sink.old < K.faults sink.new) × WrotePrefix (K.taken sink.old) (K.taken sink.new) (fault_of line name.now) }
    ensures memory { result ≡ 5 → sink.new ≡ sink.old }
{
    match report_fault(alloc, line, name) {
        Ok(text) => write(sink, text.as_slice(), 1),
        Err(_) => 5,
    }
}

/// Where no script was read: its refusal is written, or the status says why: 3 where the source failed, else as [`refuse`]
/// does.
pub fn refuse_all<K: Sink>(alloc: Global, not_read: NotRead, sink: &mut K) -> u8
    requires { K.faults sink.old < 2 ^ 64 - 1 }
    ensures statuses { (result ≡ 1) ⊎ ((result ≡ 3) ⊎ ((result ≡ 4) ⊎ (result ≡ 5))) }
    ensures refused { result ≡ 1 → IsRefusal not_read (Appends (K.taken sink.old) (K.taken sink.new)) }
    ensures read_fault { result ≡ 3 → (not_read ≡ why.Fault) × (sink.new ≡ sink.old) }
    ensures write_fault { result ≡ 4 → (K.faults sink.old < K.faults sink.new) × IsRefusal not_read (WrotePrefix (K.taken sink.old) (K.taken sink.new)) }
    ensures memory { result ≡ 5 → sink.new ≡ sink.old }
{
    match not_read {
        NotRead::Refused(refusal) => refuse(alloc, refusal, sink),
        NotRead::Fault => 3,
        NotRead::Mem => 5,
    }
}

/// Writes the line of a script that was checked, and gives the status: 0; 4 where the sink failed; 5 out of memory.
#[tactic(auto, using(crate::proofs::Limits::few_calls))]
pub fn check_read<K: Sink>(alloc: Global, script: &Script, sink: &mut K) -> u8
    requires sink { K.faults sink.old < 2 ^ 64 - 1 }
    requires accepted { KeepsLimits script.now }
    ensures statuses { (result ≡ 0) ⊎ ((result ≡ 4) ⊎ (result ≡ 5)) }
    ensures checked { result ≡ 0 → Appends (K.taken sink.old) (K.taken sink.new) (check_text script.now) }
    ensures write_fault { result ≡ 4 → (K.faults sink.old < K.faults sink.new) × WrotePrefix (K.taken sink.old) (K.taken sink.new) (check_text script.now) }
    ensures memory { result ≡ 5 → sink.new ≡ sink.old }
{
    match check_line(alloc, script) {
        Ok(text) => write(sink, text.as_slice(), 0),
        Err(_) => 5,
    }
}
