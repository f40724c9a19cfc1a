//! Jobs as text: a word, and in brackets the cells and all that the job carries.

use crate::text::{
    kind_word, push_both, push_cell, push_cells, push_fd, push_headed, push_mode, push_next,
    push_span,
};
use fop_types::{Aspect, Attr, Cell, Entry, Gfid, Item, Job, Span, StoreOp};
use std::alloc::{AllocError, Global};

fn aspect_word(aspect: Aspect) -> &'static [u8] {
    match aspect {
        Aspect::Entry => b"names",
        Aspect::Meta => b"meta",
        Aspect::Data => b"data",
    }
}

fn read_word(cells: &[Cell]) -> &'static [u8] {
    if cells.len() != 1 {
        return b"both";
    }
    match cells.first() {
        Some(one) => aspect_word(one.aspect),
        None => b"both",
    }
}

fn push_read(
    alloc: Global,
    text: &mut Vec<u8>,
    cells: &[Cell],
    fd: u32,
    dir: bool,
) -> Result<(), AllocError> {
    text.extend_from_slice(read_word(cells))?;
    push_cells(alloc, text, cells)?;
    push_fd(alloc, text, fd)?;
    if dir {
        text.extend_from_slice(b",dir")?;
    }
    Ok(())
}

fn op_word(op: &StoreOp) -> &'static [u8] {
    match op {
        StoreOp::Write { .. } => b"write",
        StoreOp::Truncate { .. } => b"truncate",
        StoreOp::SetMode { .. } => b"mode",
        StoreOp::SetAttr { .. } => b"set",
        StoreOp::DelAttr { .. } => b"del",
        StoreOp::AddName { .. } => b"add",
        StoreOp::DropName { .. } => b"drop",
        StoreOp::DropDir { .. } => b"dropdir",
        StoreOp::Move { .. } => b"move",
        StoreOp::MakeCopy { .. } => b"birth",
    }
}

fn link_word(op: &StoreOp) -> &'static [u8] {
    match op {
        StoreOp::AddName { .. } => b"link+",
        StoreOp::DropName { .. } => b"link-",
        _ => b"other",
    }
}

fn part_word(entry: &Entry) -> &'static [u8] {
    match (entry.call, entry.part) {
        (1, 1) => b".1",
        (1, 2) => b".2",
        _ => b".other",
    }
}

// The operation with its part of call 1; a change of a link has no effect.
fn push_change_word(
    text: &mut Vec<u8>,
    op: &StoreOp,
    effect: &Option<Entry>,
) -> Result<(), AllocError> {
    match effect {
        None => text.extend_from_slice(link_word(op)),
        Some(entry) => push_both(text, op_word(op), part_word(entry)),
    }
}

fn push_item(
    alloc: Global,
    text: &mut Vec<u8>,
    item: &Item,
    mode: u16,
    span: Option<Span>,
) -> Result<(), AllocError> {
    push_both(text, b"/", item.name.as_slice())?;
    push_next(alloc, text, item.gfid.lo)?;
    push_both(text, b",", kind_word(item.kind))?;
    push_mode(text, mode)?;
    if !item.target.is_empty() {
        push_both(text, b",", item.target.as_slice())?;
    }
    push_span(alloc, text, span)
}

fn push_write(
    alloc: Global,
    text: &mut Vec<u8>,
    offset: u32,
    bytes: &[u8],
) -> Result<(), AllocError> {
    push_next(alloc, text, offset as u64)?;
    push_both(text, b",", bytes)
}

fn push_attr(text: &mut Vec<u8>, attr: &Attr) -> Result<(), AllocError> {
    push_both(text, b",", attr.name.as_slice())?;
    push_both(text, b"=", attr.value.as_slice())
}

fn push_dir(alloc: Global, text: &mut Vec<u8>, name: &[u8], gfid: Gfid) -> Result<(), AllocError> {
    push_both(text, b"/", name)?;
    push_next(alloc, text, gfid.lo)
}

fn push_names(
    alloc: Global,
    text: &mut Vec<u8>,
    name: &[u8],
    target: Gfid,
    new_name: &[u8],
) -> Result<(), AllocError> {
    push_dir(alloc, text, name, target)?;
    push_both(text, b"/", new_name)
}

// The object of an operation, or its first directory.
fn gfid_of(op: &StoreOp) -> Gfid {
    match op {
        StoreOp::Write { gfid, .. } => *gfid,
        StoreOp::Truncate { gfid, .. } => *gfid,
        StoreOp::SetMode { gfid, .. } => *gfid,
        StoreOp::SetAttr { gfid, .. } => *gfid,
        StoreOp::DelAttr { gfid, .. } => *gfid,
        StoreOp::AddName { parent, .. } => *parent,
        StoreOp::DropName { parent, .. } => *parent,
        StoreOp::DropDir { parent, .. } => *parent,
        StoreOp::Move { parent, .. } => *parent,
        StoreOp::MakeCopy { gfid, .. } => *gfid,
    }
}

// All but its object or first directory.
fn push_rest(alloc: Global, text: &mut Vec<u8>, op: &StoreOp) -> Result<(), AllocError> {
    match op {
        StoreOp::Write { offset, bytes, .. } => push_write(alloc, text, *offset, bytes.as_slice()),
        StoreOp::Truncate { size, .. } => push_next(alloc, text, *size as u64),
        StoreOp::SetMode { mode, .. } => push_mode(text, *mode),
        StoreOp::SetAttr { attr, .. } => push_attr(text, attr),
        StoreOp::DelAttr { name, .. } => push_both(text, b",", name.as_slice()),
        StoreOp::AddName {
            item,
            mode,
            span,
            ..
        } => push_item(alloc, text, item, *mode, *span),
        StoreOp::DropName { name, .. } => push_both(text, b"/", name.as_slice()),
        StoreOp::DropDir { name, gfid, .. } => push_dir(alloc, text, name.as_slice(), *gfid),
        StoreOp::Move {
            name,
            target,
            new_name,
            ..
        } => push_names(alloc, text, name.as_slice(), *target, new_name.as_slice()),
        StoreOp::MakeCopy { span, .. } => push_span(alloc, text, *span),
    }
}

fn push_altered(
    alloc: Global,
    text: &mut Vec<u8>,
    cells: &[Cell],
    fd: u32,
    op: &StoreOp,
) -> Result<(), AllocError> {
    push_cells(alloc, text, cells)?;
    push_fd(alloc, text, fd)?;
    push_next(alloc, text, gfid_of(op).lo)?;
    push_rest(alloc, text, op)
}

fn push_open(alloc: Global, text: &mut Vec<u8>, fd: u32, gfid: Gfid) -> Result<(), AllocError> {
    push_headed(alloc, text, b"open[", fd as u64)?;
    push_next(alloc, text, gfid.lo)
}

fn push_change(
    alloc: Global,
    text: &mut Vec<u8>,
    cells: &[Cell],
    fd: u32,
    op: &StoreOp,
    effect: &Option<Entry>,
) -> Result<(), AllocError> {
    push_change_word(text, op, effect)?;
    push_altered(alloc, text, cells, fd, op)
}

fn push_birth(
    alloc: Global,
    text: &mut Vec<u8>,
    cells: &[Cell],
    op: &StoreOp,
) -> Result<(), AllocError> {
    text.extend_from_slice(op_word(op))?;
    push_altered(alloc, text, cells, 0, op)
}

fn push_heal(alloc: Global, text: &mut Vec<u8>, cell: Cell) -> Result<(), AllocError> {
    text.extend_from_slice(b"heal[")?;
    push_cell(alloc, text, cell)
}

fn push_body(alloc: Global, text: &mut Vec<u8>, job: &Job) -> Result<(), AllocError> {
    match job {
        Job::Read { cells, fd, dir } => push_read(alloc, text, cells.as_slice(), *fd, *dir),
        Job::Change {
            cells,
            fd,
            op,
            effect,
        } => push_change(alloc, text, cells.as_slice(), *fd, op, effect),
        Job::Birth { cells, op } => push_birth(alloc, text, cells.as_slice(), op),
        Job::Open { fd, gfid } => push_open(alloc, text, *fd, *gfid),
        Job::Index => text.extend_from_slice(b"index["),
        Job::Heal(cell) => push_heal(alloc, text, *cell),
    }
}

pub(crate) fn push_job(alloc: Global, text: &mut Vec<u8>, job: &Job) -> Result<(), AllocError> {
    push_body(alloc, text, job)?;
    text.extend_from_slice(b"]")
}
