ghost use Rattle.std.specs.List.{slice_get};
ghost use Rattle.std.specs.Prelude.{◌≡◌, ◌+◌, ◌*◌, ◌++◌, ◌≤◌, map, take, drop, length, IfOk};
ghost use Rattle.dht_fops.specs.Internal.{opens_again, heals, indexes, with_cells as with_cells_of};
ghost use Rattle.dht_fops.specs.Volumes.{sets_from};
ghost use Rattle.dht_fops.specs.code.Waits.{course_of};
ghost use Rattle.dht_fops.specs.declared.volume.Volume.{Volume};

use crate::state::{OnReply, State};
use crate::step::{Step, answer, ask};
use crate::volume::Volume;
use fop_types::{Answer, Cell, Job, OpenFd, Seq};
use std::alloc::{AllocError, Global};

/// Descriptors that are opened again; `next` is the place after the one that is asked.
#[derive(Drop)]
pub(crate) struct Opening {
    pub fds: Seq<OpenFd>,
    pub next: usize,
}

/// The cells of the sets so far, for a heal; `set` is asked, and `next` is the set after it. `count` bounds the objects that
/// were made.
#[derive(Drop)]
pub(crate) struct Indexing {
    pub count: u32,
    pub cells: Seq<(u8, Cell)>,
    pub set: u8,
    pub next: u8,
}

/// Cells that are healed; `next` is the place after the one that is asked.
#[derive(Drop)]
pub(crate) struct Healing {
    pub cells: Seq<(u8, Cell)>,
    pub next: usize,
}

fn item_at<T: Copy>(items: &Seq<T>, place: usize) -> Option<T>
    ensures { result ≡ slice_get items.now place }
{
    items.as_slice().get(place).copied()
}

/// Opens the descriptors from this place on.
///
/// # Errors
/// Out of memory.
#[tactic(auto, using(crate::proofs::Rests::opens_past))]
pub(crate) fn open_from(
    alloc: Global,
    volume: Volume,
    fds: Seq<OpenFd>,
    place: usize,
) -> Result<Step, AllocError>
    ensures { IfOk result (λ step. course_of volume step ≡ opens_again (drop place fds)) }
{
    match item_at(&fds, place) {
        None => Ok(answer(Answer::Done, None)),
        Some(open) => {
            let job = Job::Open {
                fd: open.fd,
                gfid: open.gfid,
            };
            let opening = Opening {
                fds,
                next: place + 1,
            };
            Ok(ask(open.set, job, State::Reply(OnReply::Reopen(opening))))
        }
    }
}

/// Heals the cells from this place on.
///
/// # Errors
/// Out of memory.
#[tactic(auto, using(crate::proofs::Rests::heals_past))]
pub(crate) fn heal_from(
    alloc: Global,
    volume: Volume,
    cells: Seq<(u8, Cell)>,
    place: usize,
) -> Result<Step, AllocError>
    ensures { IfOk result (λ step. course_of volume step ≡ heals (drop place cells)) }
{
    match item_at(&cells, place) {
        None => Ok(answer(Answer::Done, None)),
        Some((set, cell)) => {
            let healing = Healing {
                cells,
                next: place + 1,
            };
            Ok(ask(set, Job::Heal(cell), State::Reply(OnReply::Heal(healing))))
        }
    }
}

/// Lists the cells of the sets from this one on, and then heals them.
///
/// # Errors
/// Out of memory.
#[tactic(auto, using(crate::proofs::Sets::sets_end))]
pub(crate) fn index_from(
    alloc: Global,
    volume: Volume,
    count: u32,
    cells: Seq<(u8, Cell)>,
    set: u8,
) -> Result<Step, AllocError>
    ensures { IfOk result (λ step. course_of volume step ≡ indexes count (sets_from volume set) cells) }
{
    if set < volume.sets {
        let indexing = Indexing {
            count,
            cells,
            set,
            next: set + 1,
        };
        return Ok(ask(set, Job::Index, State::Reply(OnReply::Index(indexing))));
    }
    heal_from(alloc, volume, cells, 0)
}

// The first of the cells, up to a number.
fn front(cells: &[Cell], most: usize) -> &[Cell]
    ensures { result.now ≡ take most cells.now }
{
    if cells.len() < most {
        cells
    } else {
        &cells[..most]
    }
}

/// A set has listed its cells: the next set does, or they are healed.
///
/// # Errors
/// Out of memory.
pub(crate) fn index_on(
    alloc: Global,
    volume: Volume,
    indexing: Indexing,
    listed: Seq<Cell>,
) -> Result<Step, AllocError>
    ensures { IfOk result (λ step. course_of volume step ≡ indexes indexing.count (sets_from volume indexing.next) (with_cells_of indexing.cells indexing.count indexing.set listed)) }
{
    let count = indexing.count;
    let next = indexing.next;
    let cells = with_cells(indexing, listed.as_slice())?;
    index_from(alloc, volume, count, cells, next)
}

// The cells so far with those that a set listed, up to the bound.
fn with_cells(indexing: Indexing, listed: &[Cell]) -> Result<Seq<(u8, Cell)>, AllocError>
    ensures { IfOk result (λ cells. cells ≡ with_cells_of indexing.cells indexing.count indexing.set listed.now) }
{
    let most = 2 * indexing.count as usize + 2;
    add_cells(indexing.cells, indexing.set, front(listed, most))
}

fn add_cells(
    cells: Seq<(u8, Cell)>,
    set: u8,
    listed: &[Cell],
) -> Result<Seq<(u8, Cell)>, AllocError>
    ensures { IfOk result (λ all. all ≡ cells ++ map (λ cell. (set, cell)) listed.now) }
{
    let mut all = cells;
    for cell in listed {
        all.push((set, *cell))?;
    }
    Ok(all)
}
