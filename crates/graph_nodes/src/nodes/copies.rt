//! The turns of a copy, which keep its cells.
ghost use Rattle.std.specs.Prelude.{◌≡◌, ◌<◌, IfOk, OnOk, true};
ghost use Rattle.fop_types.specs.Bounds.{AreFew, IsRep};
ghost use Rattle.self_heal.specs.Runs.{new_run, next_cell, answered};
ghost use Rattle.self_heal.specs.Turning.{AreEncoded};

use fop_types::{BrickRep, CopyJob, Seq, SplitRow};
use self_heal::{CopyNeed, CopyRun, copies_are_encoded};
use std::alloc::{AllocError, Global};

/// Begins a copy of one to four cells, as `CopyRun::begin` does. What it sends has an encoding.
///
/// # Errors
/// Out of memory.
pub(crate) fn begin_run(
    alloc: Global,
    job: CopyJob,
    rows: Seq<SplitRow>,
) -> Result<(CopyRun, CopyNeed), AllocError>
    requires few { AreFew job.cells }
    ensures begun { IfOk result (λ r. (r.0, r.1) ≡ next_cell (new_run job rows)) }
    ensures encoded { IfOk result (λ r. AreEncoded r.1) }
    ensures few { IfOk result (λ r. AreFew r.0.job.cells) }
{
    copies_are_encoded();
    CopyRun::begin(alloc, job, rows)
}

/// A copy takes the answer of a replica, as `CopyRun::answer` does. What it sends has an encoding, where the answer has one.
///
/// # Errors
/// Out of memory.
pub(crate) fn answer_run(
    alloc: Global,
    run: &mut CopyRun,
    replica: u8,
    rep: BrickRep,
    mark: u64,
) -> Result<CopyNeed, AllocError>
    requires place { replica < 5 }
    requires few { AreFew run.old.job.cells }
    requires rep { IsRep true rep }
    ensures made { IfOk result (λ need. (run.new, need) ≡ answered run.old replica rep mark) }
    ensures encoded { IfOk result (λ need. AreEncoded need) }
    ensures few { OnOk result (AreFew run.new.job.cells) }
{
    copies_are_encoded();
    run.answer(alloc, replica, rep, mark)
}
