ghost use Rattle.std.specs.Prelude.{◌≡◌, IfOk};
ghost use Rattle.fop_types.specs.declared.store_ops.StoreOp.TheVariants as op;

use crate::cells::Gfid;
use crate::contents::{Attr, Item, Span};
use crate::data::Data;
use crate::lists::Seq;
use crate::store_ops::StoreOp;
use std::alloc::{AllocError, Global};

impl StoreOp {
    /// A copy of the op, in time and memory of its bytes.
    ///
    /// # Errors
    /// Out of memory.
    pub fn copy(&self, alloc: Global) -> Result<StoreOp, AllocError>
        ensures { IfOk result (λ c. c ≡ self.now) }
    {
        match self {
            StoreOp::Write {
                gfid,
                offset,
                bytes,
            } => StoreOp::write_of(alloc, *gfid, *offset, bytes),
            StoreOp::Truncate { gfid, size } => Ok(StoreOp::Truncate {
                gfid: *gfid,
                size: *size,
            }),
            StoreOp::SetMode { gfid, mode } => Ok(StoreOp::SetMode {
                gfid: *gfid,
                mode: *mode,
            }),
            StoreOp::SetAttr { gfid, attr } => StoreOp::set_attr_of(alloc, *gfid, attr),
            StoreOp::DelAttr { gfid, name } => StoreOp::del_attr_of(alloc, *gfid, name),
            StoreOp::AddName {
                parent,
                item,
                mode,
                span,
            } => StoreOp::add_name_of(alloc, *parent, item, *mode, *span),
            StoreOp::DropName { parent, name } => StoreOp::drop_name_of(alloc, *parent, name),
            StoreOp::DropDir { parent, name, gfid } => {
                StoreOp::drop_dir_of(alloc, *parent, name, *gfid)
            }
            StoreOp::Move {
                parent,
                name,
                target,
                new_name,
            } => StoreOp::move_of(alloc, *parent, name, *target, new_name),
            StoreOp::MakeCopy { gfid, span } => Ok(StoreOp::MakeCopy {
                gfid: *gfid,
                span: *span,
            }),
        }
    }

    fn write_of(alloc: Global, gfid: Gfid, offset: u32, bytes: &Data) -> Result<StoreOp, AllocError>
        ensures { IfOk result (λ c. c ≡ op.Write gfid offset bytes.now) }
    {
        let bytes = bytes.copy(alloc)?;
        Ok(StoreOp::Write {
            gfid,
            offset,
            bytes,
        })
    }

    fn set_attr_of(alloc: Global, gfid: Gfid, attr: &Attr) -> Result<StoreOp, AllocError>
        ensures { IfOk result (λ c. c ≡ op.SetAttr gfid attr.now) }
    {
        let attr = attr.copy(alloc)?;
        Ok(StoreOp::SetAttr { gfid, attr })
    }

    fn del_attr_of(alloc: Global, gfid: Gfid, name: &Seq<u8>) -> Result<StoreOp, AllocError>
        ensures { IfOk result (λ c. c ≡ op.DelAttr gfid name.now) }
    {
        let name = name.copy(alloc)?;
        Ok(StoreOp::DelAttr { gfid, name })
    }

    fn add_name_of(
        alloc: Global,
        parent: Gfid,
        item: &Item,
        mode: u16,
        span: Option<Span>,
    ) -> Result<StoreOp, AllocError>
        ensures { IfOk result (λ c. c ≡ op.AddName parent item.now mode span) }
    {
        let item = item.copy(alloc)?;
        Ok(StoreOp::AddName {
            parent,
            item,
            mode,
            span,
        })
    }

    fn drop_name_of(alloc: Global, parent: Gfid, name: &Seq<u8>) -> Result<StoreOp, AllocError>
        ensures { IfOk result (λ c. c ≡ op.DropName parent name.now) }
    {
        let name = name.copy(alloc)?;
        Ok(StoreOp::DropName { parent, name })
    }

    fn drop_dir_of(
        alloc: Global,
        parent: Gfid,
        name: &Seq<u8>,
        gfid: Gfid,
    ) -> Result<StoreOp, AllocError>
        ensures { IfOk result (λ c. c ≡ op.DropDir parent name.now gfid) }
    {
        let name = name.copy(alloc)?;
        Ok(StoreOp::DropDir { parent, name, gfid })
    }

    fn move_of(
        alloc: Global,
        parent: Gfid,
        name: &Seq<u8>,
        target: Gfid,
        new_name: &Seq<u8>,
    ) -> Result<StoreOp, AllocError>
        ensures { IfOk result (λ c. c ≡ op.Move parent name.now target new_name.now) }
    {
        let name = name.copy(alloc)?;
        let new_name = new_name.copy(alloc)?;
        Ok(StoreOp::Move {
            parent,
            name,
            target,
            new_name,
        })
    }
}
