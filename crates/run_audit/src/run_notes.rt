//! Notes of a run: how it carried out its script, as a witness that can be checked against the log.
ghost use Rattle.std.specs.Prelude.{◌≡◌, option_copied, slice_get};
ghost use Rattle.mount_log.specs.Controls.{control_at};

use fop_types::Seq;
use script_lang::{ControlLine, Phase, Script};

/// The events in which a control was armed, 0 if in none, and carried out; where it was carried out before its request, the place
/// of the line that sent its input; and where it was carried out as its request had come, the place of that.
#[derive(Clone, Copy)]
pub struct Carried {
    pub armed: u64,
    pub event: u64,
    pub sent: Option<usize>,
    pub request: Option<usize>,
}

/// A control of a script: its phase, and its place among the phase's controls, both from 0.
#[derive(Clone, Copy)]
pub struct ControlAt {
    pub phase: usize,
    pub at: usize,
}

/// How each control was carried out, by its phase and place; the last event of each phase; and which control an event carries
/// out or arms, and a line that was sent carries out.
#[derive(Drop)]
pub struct RunNotes {
    pub carried: Seq<Seq<Carried>>,
    pub ended: Seq<u64>,
    pub by_event: Seq<ControlAt>,
    pub by_line: Seq<ControlAt>,
}

/// The phase of this number, from 0.
pub fn phase_at(script: &Script, phase: usize) -> Option<&Phase>
    ensures { option_copied result ≡ slice_get script.now.phases phase }
{
    script.phases.as_slice().get(phase)
}

fn control_in(phase: &Phase, at: usize) -> Option<&ControlLine>
    ensures { option_copied result ≡ slice_get phase.now.controls at }
{
    phase.controls.as_slice().get(at)
}

/// The control at a place of the script.
pub fn control_of(script: &Script, at: ControlAt) -> Option<&ControlLine>
    ensures { option_copied result ≡ control_at script.now at.phase at.at }
{
    match phase_at(script, at.phase) {
        Some(phase) => control_in(phase, at.at),
        None => None,
    }
}
