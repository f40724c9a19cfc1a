ghost use Rattle.std.specs.Prelude.{◌≡◌, false, [], IfOk};
ghost use Rattle.dht_linkto.specs.DirNames.{names_job, names_in, names_shown, first_content};

use fop_types::{Aspect, Cell, Content, Gfid, IoError, Item, Job, Seq, SetReply};
use std::alloc::{AllocError, Global};

/// What a directory's copy on one set shows of its names, links among them: whether the set has a copy,
/// whether the directory was removed, the names by rising bytes, and the place, which is the length of the
/// history when the names were locked.
#[derive(Drop)]
pub struct DirNames {
    pub has_copy: bool,
    pub removed: bool,
    pub items: Seq<Item>,
    pub place: u32,
}

/// The job that reads a directory's names on a set.
///
/// # Errors
/// Out of memory.
pub fn names_job(alloc: Global, dir: Gfid) -> Result<Job, AllocError>
    ensures { IfOk result (λ job. job ≡ names_job dir) }
{
    let cell = Cell {
        gfid: dir,
        aspect: Aspect::Entry,
    };
    let cells = Seq::from_vec(Vec::from_slice(alloc, &[cell])?);
    Ok(Job::Read {
        cells,
        fd: 0,
        dir: true,
    })
}

/// What the reply to that job shows. The names are moved, not copied. A reply that answers no read shows no copy.
///
/// # Errors
/// The I/O error by which the set could not be read.
pub fn names_in(alloc: Global, reply: SetReply) -> Result<DirNames, IoError>
    ensures { result ≡ names_in reply }
{
    match reply {
        SetReply::Contents(contents, place) => {
            Ok(names_shown(alloc, first_content(contents), place))
        }
        SetReply::Io(error) => Err(error),
        SetReply::Decided(_)
        | SetReply::Opened
        | SetReply::Listed {
            cells: _,
            answered: _,
            short: _,
        }
        | SetReply::Healed(_)
        | SetReply::Skipped(_) => Ok(names_shown(alloc, None, 0)),
    }
}

fn first_content(contents: Seq<Option<Content>>) -> Option<Content>
    ensures { result ≡ first_content contents }
{
    let mut contents = contents;
    if contents.is_empty() {
        None
    } else {
        contents.remove(0)
    }
}

fn names_shown(alloc: Global, content: Option<Content>, place: u32) -> DirNames
    ensures { result ≡ names_shown content place }
{
    match content {
        None => no_names(alloc, false, place),
        Some(Content::Bytes(_)) => no_names(alloc, true, place),
        Some(
            Content::Meta {
                mode: _,
                attrs: _,
                span: _,
            },
        ) => no_names(alloc, true, place),
        Some(Content::Names { removed, items }) => DirNames {
            has_copy: true,
            removed,
            items,
            place,
        },
    }
}

fn no_names(alloc: Global, has_copy: bool, place: u32) -> DirNames
    ensures { result ≡ record { has_copy = has_copy; removed = false; items = []; place = place } }
{
    DirNames {
        has_copy,
        removed: false,
        items: Seq::new(alloc),
        place,
    }
}
