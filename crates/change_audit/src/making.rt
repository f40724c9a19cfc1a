//! Which operation of the flat file system a store op makes.
ghost use Rattle.std.specs.Prelude.{◌≡◌, ◌↔◌, IsTrue, Some};
ghost use Rattle.dht_fops.specs.Answers.{added, change_of};
ghost use Rattle.fop_types.specs.declared.flat.FlatOp.TheVariants as op;

use fop_types::{Attr, Data, FlatOp, Gfid, Item, Kind, Seq, StoreOp};

fn are_same(a: &Seq<u8>, b: &Seq<u8>) -> bool
    ensures { IsTrue result ↔ (a.now ≡ b.now) }
{
    a == b
}

fn are_data(a: &Data, b: &Data) -> bool
    ensures { IsTrue result ↔ (a.now ≡ b.now) }
{
    a == b
}

/// Whether two gfids are the same.
pub(crate) fn is_gfid(a: Gfid, b: Gfid) -> bool
    ensures { IsTrue result ↔ (a ≡ b) }
{
    a.hi == b.hi && a.lo == b.lo
}

fn is_attr(a: &Attr, b: &Attr) -> bool
    ensures { IsTrue result ↔ (a.now ≡ b.now) }
{
    are_same(&a.name, &b.name) && are_same(&a.value, &b.value)
}

fn is_write(flat: &FlatOp, gfid: Gfid, offset: u32, bytes: &Data) -> bool
    ensures { IsTrue result ↔ (flat.now ≡ op.Write gfid offset bytes.now) }
{
    match flat {
        FlatOp::Write {
            gfid: g,
            offset: o,
            bytes: b,
        } => is_gfid(*g, gfid) && *o == offset && are_data(b, bytes),
        _ => false,
    }
}

fn is_truncate(flat: &FlatOp, gfid: Gfid, size: u32) -> bool
    ensures { IsTrue result ↔ (flat.now ≡ op.Truncate gfid size) }
{
    match flat {
        FlatOp::Truncate { gfid: g, size: s } => is_gfid(*g, gfid) && *s == size,
        _ => false,
    }
}

fn is_chmod(flat: &FlatOp, gfid: Gfid, mode: u16) -> bool
    ensures { IsTrue result ↔ (flat.now ≡ op.Chmod gfid mode) }
{
    match flat {
        FlatOp::Chmod { gfid: g, mode: m } => is_gfid(*g, gfid) && *m == mode,
        _ => false,
    }
}

fn is_set_attr(flat: &FlatOp, gfid: Gfid, attr: &Attr) -> bool
    ensures { IsTrue result ↔ (flat.now ≡ op.SetAttr gfid attr.now) }
{
    match flat {
        FlatOp::SetAttr { gfid: g, attr: a } => is_gfid(*g, gfid) && is_attr(a, attr),
        _ => false,
    }
}

fn is_del_attr(flat: &FlatOp, gfid: Gfid, name: &Seq<u8>) -> bool
    ensures { IsTrue result ↔ (flat.now ≡ op.DelAttr gfid name.now) }
{
    match flat {
        FlatOp::DelAttr { gfid: g, name: n } => is_gfid(*g, gfid) && are_same(n, name),
        _ => false,
    }
}

fn is_create(flat: &FlatOp, parent: Gfid, item: &Item, mode: u16) -> bool
    ensures { IsTrue result ↔ (flat.now ≡ op.Create parent item.now.name mode item.now.gfid) }
{
    match flat {
        FlatOp::Create {
            parent: p,
            name,
            mode: m,
            drawn,
        } => {
            is_gfid(*p, parent)
                && are_same(name, &item.name)
                && *m == mode
                && is_gfid(*drawn, item.gfid)
        }
        _ => false,
    }
}

fn is_mkdir(flat: &FlatOp, parent: Gfid, item: &Item, mode: u16) -> bool
    ensures { IsTrue result ↔ (flat.now ≡ op.Mkdir parent item.now.name mode item.now.gfid) }
{
    match flat {
        FlatOp::Mkdir {
            parent: p,
            name,
            mode: m,
            drawn,
        } => {
            is_gfid(*p, parent)
                && are_same(name, &item.name)
                && *m == mode
                && is_gfid(*drawn, item.gfid)
        }
        _ => false,
    }
}

fn is_added(flat: &FlatOp, parent: Gfid, item: &Item, mode: u16) -> bool
    ensures { IsTrue result ↔ (added parent item.now mode item.now.kind ≡ Some flat.now) }
{
    match item.kind {
        Kind::File => is_create(flat, parent, item, mode),
        Kind::Dir => is_mkdir(flat, parent, item, mode),
        Kind::Link => false,
    }
}

/// Whether an operation unlinks the name of a directory.
pub fn is_unlink(flat: &FlatOp, parent: Gfid, name: &Seq<u8>) -> bool
    ensures { IsTrue result ↔ (flat.now ≡ op.Unlink parent name.now) }
{
    match flat {
        FlatOp::Unlink { parent: p, name: n } => is_gfid(*p, parent) && are_same(n, name),
        _ => false,
    }
}

fn is_rmdir(flat: &FlatOp, parent: Gfid, name: &Seq<u8>) -> bool
    ensures { IsTrue result ↔ (flat.now ≡ op.Rmdir parent name.now) }
{
    match flat {
        FlatOp::Rmdir { parent: p, name: n } => is_gfid(*p, parent) && are_same(n, name),
        _ => false,
    }
}

fn is_rename(flat: &FlatOp, parent: Gfid, name: &Seq<u8>, target: Gfid, new_name: &Seq<u8>) -> bool
    ensures { IsTrue result ↔ (flat.now ≡ op.Rename parent name.now target new_name.now) }
{
    match flat {
        FlatOp::Rename {
            parent: p,
            name: n,
            target: t,
            new_name: m,
        } => {
            is_gfid(*p, parent) && are_same(n, name) && is_gfid(*t, target) && are_same(m, new_name)
        }
        _ => false,
    }
}

/// Whether a change of the store makes this operation of the flat file system.
pub(crate) fn makes(change: &StoreOp, flat: &FlatOp) -> bool
    ensures { IsTrue result ↔ (change_of change.now ≡ Some flat.now) }
{
    match change {
        StoreOp::Write {
            gfid,
            offset,
            bytes,
        } => is_write(flat, *gfid, *offset, bytes),
        StoreOp::Truncate { gfid, size } => is_truncate(flat, *gfid, *size),
        StoreOp::SetMode { gfid, mode } => is_chmod(flat, *gfid, *mode),
        StoreOp::SetAttr { gfid, attr } => is_set_attr(flat, *gfid, attr),
        StoreOp::DelAttr { gfid, name } => is_del_attr(flat, *gfid, name),
        StoreOp::AddName {
            parent,
            item,
            mode,
            span: _,
        } => is_added(flat, *parent, item, *mode),
        StoreOp::DropName { parent, name } => is_unlink(flat, *parent, name),
        StoreOp::DropDir {
            parent,
            name,
            gfid: _,
        } => is_rmdir(flat, *parent, name),
        StoreOp::Move {
            parent,
            name,
            target,
            new_name,
        } => is_rename(flat, *parent, name, *target, new_name),
        StoreOp::MakeCopy { .. } => false,
    }
}
