ghost use Rattle.std.specs.Prelude.{◌≡◌, ◌<◌, true, false};
ghost use Rattle.afr_phases.specs.Answers.{is_plain_done};
ghost use Rattle.afr_phases.specs.Hearing.{heard};
ghost use Rattle.afr_phases.specs.Outs.{left};
ghost use Rattle.afr_phases.specs.Waves.{is_asked, taken};

use crate::outs::Outs;
use crate::replies::{is_fault, is_plain_done};
use crate::wave::Wave;
use fop_types::BrickRep;

/// A replica that was asked answers in a phase that waits for a Done without more. With it the replica confirms. With
/// any other answer it is out: by a fault where it answered that, else as lost. `mark` is the place of the fault in its
/// journal, else the number of its last connection.
pub fn hear(outs: &mut Outs, wave: &mut Wave, k: u8, rep: &BrickRep, mark: u64)
    requires place { k < 5 }
    requires asked { is_asked wave.old k ≡ true }
    ensures outs { outs.new ≡ heard outs.old k rep.now mark }
    ensures wave { wave.new ≡ taken wave.old k (is_plain_done rep.now) }
{
    if is_plain_done(rep) {
        wave.take(k, true);
        return;
    }
    miss(outs, wave, k, is_fault(rep), mark);
}

/// A replica that was asked does not answer as it was asked: it is out.
pub fn miss(outs: &mut Outs, wave: &mut Wave, k: u8, fault: bool, mark: u64)
    requires place { k < 5 }
    requires asked { is_asked wave.old k ≡ true }
    ensures outs { outs.new ≡ left outs.old k fault mark }
    ensures wave { wave.new ≡ taken wave.old k false }
{
    outs.leave(k, fault, mark);
    wave.take(k, false);
}
