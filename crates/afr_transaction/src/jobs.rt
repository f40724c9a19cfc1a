ghost use Rattle.std.specs.Prelude.{◌≡◌, IfOk};
ghost use Rattle.afr_transaction.specs.Jobs.{kind_of, birth_op, change_op};

use fop_types::{Gfid, Job, StoreOp};
use std::alloc::{AllocError, Global};

/// What a job does with its replicas. `Open` and `Index` take no locks.
#[derive(Clone, Copy)]
pub enum Kind {
    Read,
    Change,
    Birth,
    Heal,
    Open { fd: u32, gfid: Gfid },
    Index,
}

pub(crate) fn kind_of(job: &Job) -> Kind
    ensures { result ≡ kind_of job.now }
{
    match job {
        Job::Read { .. } => Kind::Read,
        Job::Change { .. } => Kind::Change,
        Job::Birth { .. } => Kind::Birth,
        Job::Open { fd, gfid } => Kind::Open {
            fd: *fd,
            gfid: *gfid,
        },
        Job::Index => Kind::Index,
        Job::Heal(_) => Kind::Heal,
    }
}

/// The op of a birth.
///
/// # Errors
/// Out of memory.
pub(crate) fn birth_op(alloc: Global, job: &Job) -> Result<Option<StoreOp>, AllocError>
    ensures { IfOk result (λ op. op ≡ birth_op job.now) }
{
    match job {
        Job::Birth { op, .. } => {
            let op = op.copy(alloc)?;
            Ok(Some(op))
        }
        _ => Ok(None),
    }
}

/// The descriptor and the op of a change.
///
/// # Errors
/// Out of memory.
pub(crate) fn change_op(alloc: Global, job: &Job) -> Result<Option<(u32, StoreOp)>, AllocError>
    ensures { IfOk result (λ op. op ≡ change_op job.now) }
{
    match job {
        Job::Change { fd, op, .. } => {
            let op = op.copy(alloc)?;
            Ok(Some((*fd, op)))
        }
        _ => Ok(None),
    }
}
