//! The last events of phases.
ghost use Rattle.std.specs.Prelude.{◌≡◌, ◌<◌, ◌≤◌, ◌-◌, ◌↔◌, IsTrue};
ghost use Rattle.run_audit.specs.Noted.{ended_at, begun, AreRising, IsWithin};

/// The last event of a phase; of one that is not there, the last event of all.
pub fn end_of(ended: &[u64], last: u64, phase: usize) -> u64
    ensures { result ≡ ended_at ended.now last phase }
{
    match ended.get(phase) {
        Some(number) => *number,
        None => last,
    }
}

/// Whether no phase ends before an earlier one.
pub fn ends_rise(ended: &[u64], last: u64) -> bool
    ensures { IsTrue result ↔ AreRising ended.now last }
{
    for phase in 0..ended.len() {
        if end_of(ended, last, phase) > end_of(ended, last, phase + 1) {
            return false;
        }
    }
    true
}

/// The last event before a phase.
pub fn begun_of(ended: &[u64], last: u64, phase: usize) -> u64
    ensures { result ≡ begun ended.now last phase }
{
    if phase == 0 {
        return 0;
    }
    end_of(ended, last, phase - 1)
}

/// Whether an event is behind the phase before, and not behind the phase.
pub fn is_within(ended: &[u64], last: u64, phase: usize, number: u64) -> bool
    ensures { IsTrue result ↔ IsWithin ended.now last phase number }
{
    if begun_of(ended, last, phase) >= number {
        return false;
    }
    number <= end_of(ended, last, phase)
}

/// The first phase, from one on, in which an event is. Events are numbered up to the last one.
pub fn phase_from(ended: &[u64], last: u64, from: usize, number: u64) -> usize
    requires { number ≤ last }
    ensures later { from ≤ result }
    ensures until { number ≤ ended_at ended.now last result }
    ensures first { from < result → ended_at ended.now last (result - 1) < number }
{
    let mut phase = from;
    while phase < ended.len() {
        if end_of(ended, last, phase) >= number {
            return phase;
        }
        phase += 1;
    }
    phase
}
