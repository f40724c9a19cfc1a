ghost use Rattle.std.specs.Prelude.{◌≡◌};
ghost use Rattle.fop_types.specs.Bounds.{content_kind};
ghost use Rattle.afr_phases.specs.Answers.{is_fault, is_plain_done, rows_in, content_in, cells_in};

use fop_types::{Aspect, BrickRep, Cell, Content, DoneArm, Row, Seq};

/// Whether a replica answered by a fault.
pub fn is_fault(rep: &BrickRep) -> bool
    ensures { result ≡ is_fault rep.now }
{
    match rep {
        BrickRep::Fault => true,
        _ => false,
    }
}

/// Whether a replica answered with a Done that carries nothing.
pub fn is_plain_done(rep: &BrickRep) -> bool
    ensures { result ≡ is_plain_done rep.now }
{
    match rep {
        BrickRep::Done(DoneArm::Nothing) => true,
        _ => false,
    }
}

/// The rows that came with a lock of so many cells, where the answer is that Done.
pub fn rows_in(rep: BrickRep, count: usize) -> Option<Seq<Row>>
    ensures { result ≡ rows_in rep count }
{
    match rep {
        BrickRep::Done(DoneArm::Rows(rows)) => {
            if rows.len() == count {
                Some(rows)
            } else {
                None
            }
        }
        _ => None,
    }
}

/// The content and last change that came with a fetch of a cell of an aspect, where the answer is that Done.
pub fn content_in(rep: BrickRep, aspect: Aspect) -> Option<(Content, u64)>
    ensures { result ≡ content_in rep aspect }
{
    match rep {
        BrickRep::Done(DoneArm::Content(content, last)) => {
            if kind_of(&content) == aspect.rank() {
                Some((content, last))
            } else {
                None
            }
        }
        _ => None,
    }
}

/// The cells that came with an index, where the answer is that Done.
pub fn cells_in(rep: BrickRep) -> Option<Seq<Cell>>
    ensures { result ≡ cells_in rep }
{
    match rep {
        BrickRep::Done(DoneArm::Cells(cells)) => Some(cells),
        _ => None,
    }
}

// The number of the aspect of the cells that hold such a content.
fn kind_of(content: &Content) -> u8
    ensures { result ≡ content_kind content.now }
{
    match content {
        Content::Bytes(_) => 0,
        Content::Meta { .. } => 1,
        Content::Names { .. } => 2,
    }
}
