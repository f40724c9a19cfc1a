ghost use Rattle.std.specs.Prelude.{◌≡◌};
ghost use Rattle.wire_xdr.specs.Xdr.{opaque, list};
ghost use Rattle.wire_xdr.specs.PartText.{cell_text, span_text, attr_text, item_text, content_text};
ghost use Rattle.wire_xdr.specs.MessageText.{op_text, req_text, row_text, done_text, rep_text};
ghost use Rattle.wire_xdr.specs.WireText.{input_text, out_text, output_text};
ghost use Rattle.wire_xdr.specs.code.Lengths.{saturating_len};

use fop_types::{
    Attr, BrickRep, BrickReq, Cell, Content, DoneArm, Input, Item, OutKind, Output, Row, Span,
    StoreOp,
};

/// The length of an opaque: its length, its bytes and its padding.
#[tactic(auto, using(crate::proofs::Sizes::opaque_size))]
fn opaque_len(bytes: &[u8]) -> usize
    ensures { result ≡ saturating_len (opaque bytes.now) }
{
    let size = bytes.len();
    let padding = (4 - size % 4) % 4;
    size.saturating_add(padding).saturating_add(4)
}

/// The length of a list of cells, of 20 bytes each.
#[tactic(auto, using(crate::proofs::Sizes::cells_size))]
fn cells_len(cells: &[Cell]) -> usize
    ensures { result ≡ saturating_len (list cell_text cells.now) }
{
    cells.len().saturating_mul(20).saturating_add(4)
}

/// The length of a range of hashes, where there is one.
#[tactic(auto, using(crate::proofs::Sizes::joined_size, crate::proofs::QuadLaws::unit_size))]
fn span_len(span: Option<Span>) -> usize
    ensures { result ≡ saturating_len (span_text span) }
{
    match span {
        None => 4,
        Some(_) => 12,
    }
}

/// The length of an attribute.
#[tactic(auto, using(crate::proofs::Sizes::joined_size))]
fn attr_len(attr: &Attr) -> usize
    ensures { result ≡ saturating_len (attr_text attr.now) }
{
    opaque_len(attr.name.as_slice()).saturating_add(opaque_len(attr.value.as_slice()))
}

/// The length of a list of attributes.
#[tactic(auto, using(crate::proofs::Sizes::joined_size, crate::proofs::QuadLaws::unit_size))]
fn attrs_len(attrs: &[Attr]) -> usize
    ensures { result ≡ saturating_len (list attr_text attrs.now) }
{
    let mut total = 4usize;
    for attr in attrs {
        total = total.saturating_add(attr_len(attr));
    }
    total
}

/// The length of an item.
#[tactic(auto, using(crate::proofs::Sizes::joined_size, crate::proofs::QuadLaws::unit_size))]
fn item_len(item: &Item) -> usize
    ensures { result ≡ saturating_len (item_text item.now) }
{
    opaque_len(item.name.as_slice())
        .saturating_add(opaque_len(item.target.as_slice()))
        .saturating_add(20)
}

/// The length of a list of items.
#[tactic(auto, using(crate::proofs::Sizes::joined_size, crate::proofs::QuadLaws::unit_size))]
fn items_len(items: &[Item]) -> usize
    ensures { result ≡ saturating_len (list item_text items.now) }
{
    let mut total = 4usize;
    for item in items {
        total = total.saturating_add(item_len(item));
    }
    total
}

/// The length of a content.
#[tactic(auto, using(crate::proofs::Sizes::joined_size, crate::proofs::QuadLaws::unit_size))]
pub fn content_len(content: &Content) -> usize
    ensures { result ≡ saturating_len (content_text content.now) }
{
    match content {
        Content::Bytes(bytes) => opaque_len(bytes.as_slice()).saturating_add(4),
        Content::Meta { attrs, span, .. } => attrs_len(attrs.as_slice())
            .saturating_add(span_len(*span))
            .saturating_add(8),
        Content::Names { items, .. } => items_len(items.as_slice()).saturating_add(8),
    }
}

/// The length of a store operation.
#[tactic(auto, using(crate::proofs::Sizes::joined_size, crate::proofs::QuadLaws::unit_size))]
fn op_len(op: &StoreOp) -> usize
    ensures { result ≡ saturating_len (op_text op.now) }
{
    match op {
        StoreOp::Write { bytes, .. } => opaque_len(bytes.as_slice()).saturating_add(24),
        StoreOp::Truncate { .. } => 24,
        StoreOp::SetMode { .. } => 24,
        StoreOp::SetAttr { attr, .. } => attr_len(attr).saturating_add(20),
        StoreOp::DelAttr { name, .. } => opaque_len(name.as_slice()).saturating_add(20),
        StoreOp::AddName { item, span, .. } => item_len(item)
            .saturating_add(span_len(*span))
            .saturating_add(24),
        StoreOp::DropName { name, .. } => opaque_len(name.as_slice()).saturating_add(20),
        StoreOp::DropDir { name, .. } => opaque_len(name.as_slice()).saturating_add(36),
        StoreOp::Move { name, new_name, .. } => opaque_len(name.as_slice())
            .saturating_add(opaque_len(new_name.as_slice()))
            .saturating_add(36),
        StoreOp::MakeCopy { span, .. } => span_len(*span).saturating_add(20),
    }
}

/// The length of a request.
#[tactic(auto, using(crate::proofs::Sizes::joined_size, crate::proofs::QuadLaws::unit_size))]
fn req_len(req: &BrickReq) -> usize
    ensures { result ≡ saturating_len (req_text req.now) }
{
    match req {
        BrickReq::Lock { cells, .. } => cells_len(cells.as_slice()).saturating_add(12),
        BrickReq::Unlock { .. } => 8,
        BrickReq::Mark { cells, .. } => cells_len(cells.as_slice()).saturating_add(12),
        BrickReq::Op { op, .. } => op_len(op).saturating_add(16),
        BrickReq::Post { cells, .. } => cells_len(cells.as_slice()).saturating_add(16),
        BrickReq::Fetch { .. } => 28,
        BrickReq::Replace { content, .. } => content_len(content).saturating_add(32),
        BrickReq::Clear { cells, .. } => cells_len(cells.as_slice()).saturating_add(8),
        BrickReq::Settle { cells, .. } => cells_len(cells.as_slice()).saturating_add(8),
        BrickReq::Index => 4,
        BrickReq::Open { .. } => 24,
        BrickReq::Release { .. } => 8,
    }
}

/// The length of an input: the length of its encoding, as far as 64 bits count.
#[tactic(auto, using(crate::proofs::Sizes::joined_size, crate::proofs::QuadLaws::unit_size))]
pub fn input_len(input: &Input) -> usize
    ensures { result ≡ saturating_len (input_text input.now) }
{
    match input {
        Input::Request { req, .. } => req_len(req).saturating_add(16),
        Input::Down { .. } => 8,
        Input::Up => 4,
        Input::Connect { .. } => 12,
        Input::Disconnect { .. } => 8,
        Input::FaultAt { .. } => 12,
    }
}

/// The length of a row.
#[tactic(auto, using(crate::proofs::Sizes::joined_size, crate::proofs::Sizes::units_size, crate::proofs::QuadLaws::unit_size))]
fn row_len(row: &Row) -> usize
    ensures { result ≡ saturating_len (row_text row.now) }
{
    let counters = row.pending.as_slice().len();
    counters.saturating_mul(4).saturating_add(16)
}

/// The length of a list of rows.
#[tactic(auto, using(crate::proofs::Sizes::joined_size, crate::proofs::QuadLaws::unit_size))]
fn rows_len(rows: &[Row]) -> usize
    ensures { result ≡ saturating_len (list row_text rows.now) }
{
    let mut total = 4usize;
    for row in rows {
        total = total.saturating_add(row_len(row));
    }
    total
}

/// The length of what comes with a Done.
#[tactic(auto, using(crate::proofs::Sizes::joined_size, crate::proofs::QuadLaws::unit_size))]
fn done_len(arm: &DoneArm) -> usize
    ensures { result ≡ saturating_len (done_text arm.now) }
{
    match arm {
        DoneArm::Nothing => 4,
        DoneArm::Rows(rows) => rows_len(rows.as_slice()).saturating_add(4),
        DoneArm::Content(content, _) => content_len(content).saturating_add(12),
        DoneArm::Cells(cells) => cells_len(cells.as_slice()).saturating_add(4),
    }
}

/// The length of a reply.
#[tactic(auto, using(crate::proofs::Sizes::joined_size, crate::proofs::QuadLaws::unit_size))]
fn rep_len(rep: &BrickRep) -> usize
    ensures { result ≡ saturating_len (rep_text rep.now) }
{
    match rep {
        BrickRep::Done(arm) => done_len(arm).saturating_add(4),
        BrickRep::Gone => 4,
        BrickRep::Fault => 4,
        BrickRep::Unfit => 4,
        BrickRep::BadFd => 4,
    }
}

/// The length of what an output says.
#[tactic(auto, using(crate::proofs::Sizes::joined_size, crate::proofs::QuadLaws::unit_size))]
fn out_len(kind: &OutKind) -> usize
    ensures { result ≡ saturating_len (out_text kind.now) }
{
    match kind {
        OutKind::Reply { rep, .. } => rep_len(rep).saturating_add(12),
        OutKind::Closed => 4,
        OutKind::Opened => 4,
        OutKind::Connected { .. } => 12,
        OutKind::Malformed { .. } => 8,
    }
}

/// The length of an output: the length of its encoding, as far as 64 bits count.
#[tactic(auto, using(crate::proofs::Sizes::joined_size, crate::proofs::QuadLaws::unit_size))]
pub fn output_len(output: &Output) -> usize
    ensures { result ≡ saturating_len (output_text output.now) }
{
    out_len(&output.kind).saturating_add(8)
}
