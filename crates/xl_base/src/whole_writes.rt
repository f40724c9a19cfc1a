ghost use Rattle.std.specs.Prelude.{◌<◌, ◌≤◌, ◌^◌, ◌-◌, OnOk, OnErr};
ghost use Rattle.std.specs.Io.KnownBytes.{Appends};
ghost use Rattle.xl_base.specs.Writes.{WrotePrefix};

use crate::failures::Failed;
use crate::sinks::Sink;

/// Writes all bytes, in as many pieces as the sink asks for.
///
/// # Errors
/// `Failed` at the first write that failed: the sink took a proper prefix of the bytes,
/// and its count of faults rose in this call.
pub fn write_all<K: Sink>(sink: &mut K, bytes: &[u8]) -> Result<(), Failed>
    requires { K.faults sink.old < 2 ^ 64 - 1 }
    ensures wrote { OnOk result (Appends (K.taken sink.old) (K.taken sink.new) bytes.now) }
    ensures prefix { OnErr result (WrotePrefix (K.taken sink.old) (K.taken sink.new) bytes.now) }
    ensures fault { OnErr result (K.faults sink.old < K.faults sink.new) }
    ensures rising { K.faults sink.old ≤ K.faults sink.new }
{
    let mut at = 0;
    while at < bytes.len() {
        match sink.write(&bytes[at..]) {
            Ok(count) => at += count,
            Err(_) => return Err(Failed),
        }
    }
    Ok(())
}
