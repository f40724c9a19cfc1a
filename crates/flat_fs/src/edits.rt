ghost use Rattle.std.specs.Prelude.{◌≡◌, ◌+◌, ◌≤◌, length, OnOk};
ghost use Rattle.fop_types.specs.FileBytes.{file_limit};
ghost use Rattle.flat_fs.specs.Edits.{IsSmall, Fits, edited};

use contents::{insert_attr, remove_attr, remove_item, resize_data, write_data};
use fop_types::{Attr, Data, FlatObject, Item, Seq, insert_item};
use std::alloc::{AllocError, Global};

/// A change of one part of an object: a directory's names or its mark, a mode, an attribute, a file's bytes.
#[derive(Drop)]
pub(crate) enum Edit {
    PutItem(Item),
    DropItem(Seq<u8>),
    MarkRemoved,
    SetMode(u16),
    PutAttr(Attr),
    DropAttr(Seq<u8>),
    Write { offset: u32, bytes: Data },
    Resize(u32),
}

fn put_item(object: &mut FlatObject, item: Item) -> Result<(), AllocError>
    ensures ok { OnOk result (object.new ≡ edited (Edit.PutItem item) object.old) }
    ensures small { IsSmall object.old → IsSmall object.new }
{
    match object {
        FlatObject::Directory { names, .. } => {
            insert_item(names, item)?;
            Ok(())
        }
        FlatObject::File { .. } => Ok(()),
    }
}

fn drop_item(object: &mut FlatObject, name: &[u8])
    ensures new { object.new ≡ edited (Edit.DropItem name.now) object.old }
    ensures small { IsSmall object.old → IsSmall object.new }
{
    match object {
        FlatObject::Directory { names, .. } => remove_item(names, name),
        FlatObject::File { .. } => {}
    }
}

fn mark_removed(object: &mut FlatObject)
    ensures new { object.new ≡ edited Edit.MarkRemoved object.old }
    ensures small { IsSmall object.old → IsSmall object.new }
{
    match object {
        FlatObject::Directory { removed, .. } => *removed = true,
        FlatObject::File { .. } => {}
    }
}

fn set_mode(object: &mut FlatObject, new: u16)
    ensures new { object.new ≡ edited (Edit.SetMode new) object.old }
    ensures small { IsSmall object.old → IsSmall object.new }
{
    match object {
        FlatObject::Directory { mode, .. } => *mode = new,
        FlatObject::File { mode, .. } => *mode = new,
    }
}

fn put_attr(object: &mut FlatObject, attr: Attr) -> Result<(), AllocError>
    ensures ok { OnOk result (object.new ≡ edited (Edit.PutAttr attr) object.old) }
    ensures small { IsSmall object.old → IsSmall object.new }
{
    match object {
        FlatObject::Directory { attrs, .. } => {
            insert_attr(attrs, attr)?;
            Ok(())
        }
        FlatObject::File { attrs, .. } => {
            insert_attr(attrs, attr)?;
            Ok(())
        }
    }
}

fn drop_attr(object: &mut FlatObject, name: &[u8])
    ensures new { object.new ≡ edited (Edit.DropAttr name.now) object.old }
    ensures small { IsSmall object.old → IsSmall object.new }
{
    match object {
        FlatObject::Directory { attrs, .. } => remove_attr(attrs, name),
        FlatObject::File { attrs, .. } => remove_attr(attrs, name),
    }
}

fn write(alloc: Global, object: &mut FlatObject, offset: u32, new: Data) -> Result<(), AllocError>
    requires { offset + length new ≤ file_limit }
    ensures ok { OnOk result (object.new ≡ edited (Edit.Write offset new) object.old) }
    ensures small { IsSmall object.old → IsSmall object.new }
{
    match object {
        FlatObject::Directory { .. } => {
            drop(new);
            Ok(())
        }
        FlatObject::File { bytes, .. } => write_data(alloc, bytes, offset, new),
    }
}

fn resize(alloc: Global, object: &mut FlatObject, size: u32) -> Result<(), AllocError>
    requires { size ≤ file_limit }
    ensures ok { OnOk result (object.new ≡ edited (Edit.Resize size) object.old) }
    ensures small { IsSmall object.old → IsSmall object.new }
{
    match object {
        FlatObject::Directory { .. } => Ok(()),
        FlatObject::File { bytes, .. } => resize_data(alloc, bytes, size),
    }
}

/// Edits an object. An edit of a part that the object lacks leaves it as it is.
///
/// # Errors
/// Out of memory; the part that was to be edited may be lost then.
pub(crate) fn edit_object(
    alloc: Global,
    object: &mut FlatObject,
    edit: Edit,
) -> Result<(), AllocError>
    requires { Fits edit }
    ensures ok { OnOk result (object.new ≡ edited edit object.old) }
    ensures small { IsSmall object.old → IsSmall object.new }
{
    match edit {
        Edit::PutItem(item) => put_item(object, item),
        Edit::DropItem(name) => {
            drop_item(object, name.as_slice());
            Ok(())
        }
        Edit::MarkRemoved => {
            mark_removed(object);
            Ok(())
        }
        Edit::SetMode(mode) => {
            set_mode(object, mode);
            Ok(())
        }
        Edit::PutAttr(attr) => put_attr(object, attr),
        Edit::DropAttr(name) => {
            drop_attr(object, name.as_slice());
            Ok(())
        }
        Edit::Write { offset, bytes } => write(alloc, object, offset, bytes),
        Edit::Resize(size) => resize(alloc, object, size),
    }
}
