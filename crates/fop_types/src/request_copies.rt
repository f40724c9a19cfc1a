ghost use Rattle.std.specs.Prelude.{◌≡◌, IfOk};
ghost use Rattle.fop_types.specs.declared.messages.BrickReq.TheVariants as req;

use crate::cells::Cell;
use crate::contents::{Content, Mask};
use crate::lists::Seq;
use crate::messages::BrickReq;
use crate::store_ops::StoreOp;
use std::alloc::{AllocError, Global};

impl BrickReq {
    /// A copy of the request, in time and memory of its bytes.
    ///
    /// # Errors
    /// Out of memory.
    pub fn copy(&self, alloc: Global) -> Result<BrickReq, AllocError>
        ensures { IfOk result (λ c. c ≡ self.now) }
    {
        match self {
            BrickReq::Lock {
                call,
                shared,
                cells,
            } => BrickReq::lock_of(alloc, *call, *shared, cells),
            BrickReq::Unlock { call } => Ok(BrickReq::Unlock { call: *call }),
            BrickReq::Mark { change, cells } => BrickReq::mark_of(alloc, *change, cells),
            BrickReq::Op { change, fd, op } => BrickReq::op_of(alloc, *change, *fd, op),
            BrickReq::Post {
                change,
                cells,
                mask,
            } => BrickReq::post_of(alloc, *change, cells, *mask),
            BrickReq::Fetch { fd, cell } => Ok(BrickReq::Fetch {
                fd: *fd,
                cell: *cell,
            }),
            BrickReq::Replace {
                cell,
                last,
                content,
            } => BrickReq::replace_of(alloc, *cell, *last, content),
            BrickReq::Clear { cells, mask } => BrickReq::clear_of(alloc, cells, *mask),
            BrickReq::Settle { cells, mask } => BrickReq::settle_of(alloc, cells, *mask),
            BrickReq::Index => Ok(BrickReq::Index),
            BrickReq::Open { fd, gfid } => Ok(BrickReq::Open {
                fd: *fd,
                gfid: *gfid,
            }),
            BrickReq::Release { fd } => Ok(BrickReq::Release { fd: *fd }),
        }
    }

    fn lock_of(
        alloc: Global,
        call: u32,
        shared: bool,
        cells: &Seq<Cell>,
    ) -> Result<BrickReq, AllocError>
        ensures { IfOk result (λ c. c ≡ req.Lock call shared cells.now) }
    {
        let cells = cells.copy(alloc)?;
        Ok(BrickReq::Lock {
            call,
            shared,
            cells,
        })
    }

    fn mark_of(alloc: Global, change: u64, cells: &Seq<Cell>) -> Result<BrickReq, AllocError>
        ensures { IfOk result (λ c. c ≡ req.Mark change cells.now) }
    {
        let cells = cells.copy(alloc)?;
        Ok(BrickReq::Mark { change, cells })
    }

    fn op_of(alloc: Global, change: u64, fd: u32, op: &StoreOp) -> Result<BrickReq, AllocError>
        ensures { IfOk result (λ c. c ≡ req.Op change fd op.now) }
    {
        let op = op.copy(alloc)?;
        Ok(BrickReq::Op { change, fd, op })
    }

    fn post_of(
        alloc: Global,
        change: u64,
        cells: &Seq<Cell>,
        mask: Mask,
    ) -> Result<BrickReq, AllocError>
        ensures { IfOk result (λ c. c ≡ req.Post change cells.now mask) }
    {
        let cells = cells.copy(alloc)?;
        Ok(BrickReq::Post {
            change,
            cells,
            mask,
        })
    }

    fn replace_of(
        alloc: Global,
        cell: Cell,
        last: u64,
        content: &Content,
    ) -> Result<BrickReq, AllocError>
        ensures { IfOk result (λ c. c ≡ req.Replace cell last content.now) }
    {
        let content = content.copy(alloc)?;
        Ok(BrickReq::Replace {
            cell,
            last,
            content,
        })
    }

    fn clear_of(alloc: Global, cells: &Seq<Cell>, mask: Mask) -> Result<BrickReq, AllocError>
        ensures { IfOk result (λ c. c ≡ req.Clear cells.now mask) }
    {
        let cells = cells.copy(alloc)?;
        Ok(BrickReq::Clear { cells, mask })
    }

    fn settle_of(alloc: Global, cells: &Seq<Cell>, mask: Mask) -> Result<BrickReq, AllocError>
        ensures { IfOk result (λ c. c ≡ req.Settle cells.now mask) }
    {
        let cells = cells.copy(alloc)?;
        Ok(BrickReq::Settle { cells, mask })
    }
}
