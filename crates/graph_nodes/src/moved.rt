ghost use Rattle.std.specs.Prelude.{◌≡◌, []};
ghost use Rattle.std.specs.FinMap as map;
ghost use Rattle.afr_ledger.specs.Ledger.{empty};
ghost use Rattle.frame_stack.specs.Stack.{empty_stack};

use crate::ledgers::MountLedger;
use crate::locals::Local;
use fop_types::{Cell, CopyRecord, FopAnswer, Gfid, Seq, SkipCause};
use frame_stack::FrameStack;
use inode_table::InodeTable;
use std::alloc::Global;
use std::collections::BTreeSet;
use xlator_law::WindNo;

/// What all graphs of a mount share: the ledger of its changes, its inodes, the one stack of all frames, those frames that
/// wait for what is no wind, and how many sets its first graph has.
#[derive(Drop)]
pub struct Mount {
    pub ledger: MountLedger,
    pub inodes: InodeTable,
    pub frames: FrameStack<Local>,
    pub parked: BTreeSet<u32>,
    pub root_sets: u8,
}

impl Mount {
    /// A mount without changes, inodes and frames, whose first graph has so many sets. It takes no memory.
    pub fn new(alloc: Global, root_sets: u8) -> Mount
        ensures ledger { result.ledger ≡ empty }
        ensures inodes { result.inodes ≡ map.empty }
        ensures frames { result.frames ≡ empty_stack }
        ensures parked { result.parked.keys ≡ [] }
        ensures root_sets { result.root_sets ≡ root_sets }
    {
        Mount {
            ledger: MountLedger::new(alloc),
            inodes: InodeTable::new(alloc),
            frames: FrameStack::new(alloc),
            parked: BTreeSet::new(alloc),
            root_sets,
        }
    }
}

/// What a call asks of the mount's holds.
#[derive(Clone, Copy, PartialEq, Eq)]
pub enum HoldAsk {
    Alone(Gfid),
    Extend(Gfid),
    Release,
}

/// What a turn of a graph gives, each list in order: the calls that ask for a hold; the messages for bricks; the
/// answers of fops with their places; the copies and skips that were made; and the winds that were opened (true) and
/// ended (false), each with its call.
#[derive(Drop)]
pub struct Moved {
    pub holds: Seq<(u32, HoldAsk)>,
    pub sends: Seq<(u8, Seq<u8>)>,
    pub answers: Seq<(u32, FopAnswer, u32)>,
    pub copies: Seq<CopyRecord>,
    pub skips: Seq<(Cell, SkipCause)>,
    pub winds: Seq<(WindNo, u32, bool)>,
}
