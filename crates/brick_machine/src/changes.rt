//! What a request makes of the cells.
ghost use Rattle.std.specs.Prelude.{◌≡◌, OnOk, IfOk};
ghost use Rattle.brick_machine.specs.Serving.{cells_after, is_fit};

use cell_store::Store;
use fop_types::BrickReq;
use std::alloc::{AllocError, Global};

/// Makes the change of cells that a request asks for, if it does; says whether it fits.
///
/// # Errors
/// Out of memory.
#[tactic(auto, using(crate::proofs::Taking::taken))]
pub(crate) fn change_cells(
    store: &mut Store,
    alloc: Global,
    req: BrickReq,
) -> Result<bool, AllocError>
    ensures cells { OnOk result (store.new ≡ record store.old { cells = cells_after store.old.cells req }) }
    ensures fits { IfOk result (λ fits. fits ≡ is_fit store.old.cells req) }
    ensures names { store.new.names ≡ store.old.names }
{
    match req {
        BrickReq::Mark { cells: those, .. } => {
            let marked = store.mark(those.as_slice());
            drop(those);
            marked.and(Ok(true))
        }
        BrickReq::Op { change, op, .. } => store.take(alloc, change, op),
        BrickReq::Post {
            cells: those,
            mask,
            ..
        } => {
            let posted = store.post(those.as_slice(), mask);
            drop(those);
            posted.and(Ok(true))
        }
        BrickReq::Replace {
            cell,
            last,
            content,
        } => {
            store.replace(&cell, content, last)?;
            Ok(true)
        }
        BrickReq::Clear { cells: those, mask } => {
            store.clear(those.as_slice(), mask);
            drop(those);
            Ok(true)
        }
        BrickReq::Settle { cells: those, mask } => {
            let settled = store.settle(those.as_slice(), mask);
            drop(those);
            settled.and(Ok(true))
        }
        other => {
            drop(other);
            Ok(true)
        }
    }
}
