//! The objects that the calls of a script make.
ghost use Rattle.std.specs.Prelude.{◌≡◌, ◌^◌, ◌-◌, min};
ghost use Rattle.mount_log.specs.Lines.{makes as makes_of, creations_in as creations_in_lines, creations_of};

use fop_types::Call;
use script_lang::{Phase, Script};

/// Whether a call makes an object.
pub fn makes(call: &Call) -> bool
    ensures { result ≡ makes_of call.now }
{
    match call {
        Call::Mkdir { .. } => true,
        Call::Create { .. } => true,
        _ => false,
    }
}

#[tactic(auto, using(crate::proofs::MadeObjects::makes_one, crate::proofs::MadeObjects::makes_none, crate::proofs::MadeObjects::stops))]
fn creations_in(phase: &Phase) -> u32
    ensures { result ≡ min (creations_in_lines phase.now.calls) (2 ^ 32 - 1) }
{
    let mut count = 0u32;
    for line in phase.calls.as_slice() {
        if makes(&line.call) {
            count = count.saturating_add(1);
        }
    }
    count
}

/// How many calls of a script make an object, or the greatest `u32` where that is less.
#[tactic(auto, using(crate::proofs::MadeObjects::stops_by))]
pub fn creations(script: &Script) -> u32
    ensures { result ≡ min (creations_of script.now.phases) (2 ^ 32 - 1) }
{
    let mut count = 0u32;
    for phase in script.phases.as_slice() {
        count = count.saturating_add(creations_in(phase));
    }
    count
}
