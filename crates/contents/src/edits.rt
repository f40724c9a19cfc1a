ghost use Rattle.std.specs.Prelude.{◌≡◌, ◌+◌, ◌≤◌, true, length, IsOk, OnOk, OnErr};
ghost use Rattle.fop_types.specs.FileBytes.{file_limit, written, resized};
ghost use Rattle.fop_types.specs.StoreOps.{edited};
ghost use Rattle.fop_types.specs.StoreOps.Edit.{PutBytes, Resize, PutMode, PutAttr, DropAttr, PutItem, DropItem, MarkRemoved};
ghost use Rattle.contents.specs.Edits.{Fits, edited_by, is_sure};
ghost use Rattle.contents.specs.Rising.{IsRising};
ghost use Rattle.contents.specs.declared.halves.Search.TheVariants.{Halves};

use crate::attrs::{insert_attr_by, remove_attr_by};
use crate::file_bytes;
use crate::halves::Search;
use crate::names::{insert_item_by, remove_item_by, rename_item_by};
use fop_types::{Attr, Content, Data, Item, Seq};
use std::alloc::{AllocError, Global};

/// An edit of one cell's content. Of a file's bytes: a write, or another length. Of metadata: the mode, or one attribute. Of a
/// directory's names: one name put in, dropped or renamed to an item of another name, and the mark of a removed
/// directory. An item or an attribute that is put in takes the place of one of an equal name.
#[derive(Drop)]
pub enum Edit {
    Write { offset: u32, bytes: Data },
    Resize(u32),
    SetMode(u16),
    PutAttr(Attr),
    DropAttr(Seq<u8>),
    PutItem(Item),
    DropItem(Seq<u8>),
    MarkRemoved,
    Rename { name: Seq<u8>, item: Item },
}

// Writes into the bytes, which are copied first where they are shared.
fn write_into(alloc: Global, bytes: &mut Data, offset: u32, new: &[u8]) -> Result<(), AllocError>
    requires { offset + length new.now ≤ file_limit }
    ensures ok { OnOk result (bytes.new ≡ written bytes.old offset new.now) }
    ensures err { OnErr result (bytes.new ≡ bytes.old) }
{
    let mut held = bytes.take(alloc)?;
    let done = file_bytes::write_at(&mut held, offset as usize, new);
    *bytes = Data::from_vec(held);
    done
}

/// Writes bytes to a file from an offset on, as `write_at` does. Bytes that cover the file take its place, and are not copied;
/// the file's own are copied first where they are shared.
///
/// # Errors
/// Out of memory, with the bytes unchanged.
pub fn write_data(alloc: Global, bytes: &mut Data, offset: u32, new: Data) -> Result<(), AllocError>
    requires { offset + length new ≤ file_limit }
    ensures ok { OnOk result (bytes.new ≡ written bytes.old offset new) }
    ensures err { OnErr result (bytes.new ≡ bytes.old) }
{
    if offset == 0 && bytes.len() <= new.len() {
        *bytes = new;
        return Ok(());
    }
    let done = write_into(alloc, bytes, offset, new.as_slice());
    drop(new);
    done
}

/// Gives a file's bytes another length, as `resize` does. They are copied first where they are shared.
///
/// # Errors
/// Out of memory, with the bytes unchanged.
pub fn resize_data(alloc: Global, bytes: &mut Data, size: u32) -> Result<(), AllocError>
    ensures ok { OnOk result (bytes.new ≡ resized bytes.old size) }
    ensures err { OnErr result (bytes.new ≡ bytes.old) }
{
    let mut held = bytes.take(alloc)?;
    let done = file_bytes::resize(&mut held, size as usize);
    *bytes = Data::from_vec(held);
    done
}

fn write_bytes(
    alloc: Global,
    content: &mut Content,
    offset: u32,
    new: Data,
) -> Result<(), AllocError>
    requires { offset + length new ≤ file_limit }
    ensures ok { OnOk result (content.new ≡ edited (PutBytes offset new) content.old) }
    ensures err { OnErr result (content.new ≡ content.old) }
{
    match content {
        Content::Bytes(bytes) => write_data(alloc, bytes, offset, new),
        Content::Meta { .. } => {
            drop(new);
            Ok(())
        }
        Content::Names { .. } => {
            drop(new);
            Ok(())
        }
    }
}

fn resize_bytes(alloc: Global, content: &mut Content, size: u32) -> Result<(), AllocError>
    ensures ok { OnOk result (content.new ≡ edited (Resize size) content.old) }
    ensures err { OnErr result (content.new ≡ content.old) }
{
    match content {
        Content::Bytes(bytes) => resize_data(alloc, bytes, size),
        Content::Meta { .. } => Ok(()),
        Content::Names { .. } => Ok(()),
    }
}

fn set_mode(content: &mut Content, new: u16)
    ensures { content.new ≡ edited (PutMode new) content.old }
{
    match content {
        Content::Bytes(_) => {}
        Content::Meta { mode, .. } => *mode = new,
        Content::Names { .. } => {}
    }
}

fn put_attr(content: &mut Content, attr: Attr, search: Search) -> Result<(), AllocError>
    requires { search ≡ Halves → IsRising content.old }
    ensures ok { OnOk result (content.new ≡ edited (PutAttr attr) content.old) }
    ensures err { OnErr result (content.new ≡ content.old) }
{
    match content {
        Content::Bytes(_) => Ok(()),
        Content::Meta { attrs, .. } => insert_attr_by(attrs, attr, search),
        Content::Names { .. } => Ok(()),
    }
}

fn drop_attr(content: &mut Content, name: &[u8], search: Search)
    requires { search ≡ Halves → IsRising content.old }
    ensures { content.new ≡ edited (DropAttr name.now) content.old }
{
    match content {
        Content::Bytes(_) => {}
        Content::Meta { attrs, .. } => remove_attr_by(attrs, name, search),
        Content::Names { .. } => {}
    }
}

fn put_item(content: &mut Content, item: Item, search: Search) -> Result<(), AllocError>
    requires { search ≡ Halves → IsRising content.old }
    ensures ok { OnOk result (content.new ≡ edited (PutItem item) content.old) }
    ensures err { OnErr result (content.new ≡ content.old) }
{
    match content {
        Content::Bytes(_) => Ok(()),
        Content::Meta { .. } => Ok(()),
        Content::Names { items, .. } => insert_item_by(items, item, search),
    }
}

fn drop_item(content: &mut Content, name: &[u8], search: Search)
    requires { search ≡ Halves → IsRising content.old }
    ensures { content.new ≡ edited (DropItem name.now) content.old }
{
    match content {
        Content::Bytes(_) => {}
        Content::Meta { .. } => {}
        Content::Names { items, .. } => remove_item_by(items, name, search),
    }
}

fn mark_removed(content: &mut Content)
    ensures { content.new ≡ edited MarkRemoved content.old }
{
    match content {
        Content::Bytes(_) => {}
        Content::Meta { .. } => {}
        Content::Names { removed, .. } => *removed = true,
    }
}

fn rename(
    alloc: Global,
    content: &mut Content,
    name: &[u8],
    item: Item,
    search: Search,
) -> Result<(), AllocError>
    requires { search ≡ Halves → IsRising content.old }
    ensures ok { OnOk result (content.new ≡ edited_by (Edit.Rename name.now item) content.old) }
    ensures err { OnErr result (content.new ≡ content.old) }
{
    match content {
        Content::Bytes(_) => Ok(()),
        Content::Meta { .. } => Ok(()),
        Content::Names { items, .. } => rename_item_by(alloc, items, name, item, search),
    }
}

/// Edits a content in its place. A write and another length may end at 65,536 at most; zero bytes fill what lies
/// between a file's end and them. An edit of another aspect leaves the content as it is. A mode, a dropped attribute, a
/// dropped name and a removed mark need no memory.
///
/// # Errors
/// Out of memory, with nothing changed.
pub fn edit_content(alloc: Global, content: &mut Content, edit: Edit) -> Result<(), AllocError>
    requires { Fits edit }
    ensures ok { OnOk result (content.new ≡ edited_by edit content.old) }
    ensures err { OnErr result (content.new ≡ content.old) }
    ensures sure { is_sure edit ≡ true → IsOk result }
{
    edit_by(alloc, content, edit, Search::InTurn)
}

/// The same, with a search of names that the caller chooses.
pub(crate) fn edit_by(
    alloc: Global,
    content: &mut Content,
    edit: Edit,
    search: Search,
) -> Result<(), AllocError>
    requires fits { Fits edit }
    requires rises { search ≡ Halves → IsRising content.old }
    ensures ok { OnOk result (content.new ≡ edited_by edit content.old) }
    ensures err { OnErr result (content.new ≡ content.old) }
    ensures sure { is_sure edit ≡ true → IsOk result }
{
    match edit {
        Edit::Write { offset, bytes } => write_bytes(alloc, content, offset, bytes),
        Edit::Resize(size) => resize_bytes(alloc, content, size),
        Edit::SetMode(mode) => {
            set_mode(content, mode);
            Ok(())
        }
        Edit::PutAttr(attr) => put_attr(content, attr, search),
        Edit::DropAttr(name) => {
            drop_attr(content, name.as_slice(), search);
            Ok(())
        }
        Edit::PutItem(item) => put_item(content, item, search),
        Edit::DropItem(name) => {
            drop_item(content, name.as_slice(), search);
            Ok(())
        }
        Edit::MarkRemoved => {
            mark_removed(content);
            Ok(())
        }
        Edit::Rename { name, item } => rename(alloc, content, name.as_slice(), item, search),
    }
}
