//! What the frames of nodes keep while they wait.
ghost use Rattle.std.specs.Prelude.{◌≡◌, IfOk};
ghost use Rattle.graph_nodes.specs.Kept.{IsFopKept, IsTxnKept, IsCopyKept, IsJobKept};
ghost use Rattle.graph_nodes.specs.Pages.{IsRange};

use afr_transaction::Txn;
use dht_fops::DhtFop;
use fop_types::Gfid;
use graph_items::Down;
use self_heal::CopyRun;
use std::alloc::{AllocError, Global};
use std::marker::Model;
use xlator_law::Entry;

/// A fop of a distribute node: whose frame it is, the fop under way, how many of the layouts that it has read the node
/// keeps, and how many jobs it may still ask for.
#[derive(Drop)]
pub struct FopState {
    pub entry: Entry,
    pub fop: DhtFop,
    pub learnt: usize,
    pub jobs: u64,
}

/// A fop of a distribute node that waits, and keeps its bounds whatever it is answered within bounds. It is in a box, so that
/// a frame's local is small.
#[derive(Drop)]
pub struct FopFrame {
    state: Box<FopState>,
}

impl Model for FopFrame {
    ghost use Rattle.graph_nodes.specs.Kept.{IsFopKept};
    ghost use Rattle.graph_nodes.specs.declared.locals.FopState.{FopState};

    ghost Value = { FopState };

    ghost view = { λ f. f.state.value };

    ghost invariant = { λ f. IsFopKept f.state.value.fop };
}

impl FopFrame {
    /// A fop that keeps its bounds.
    ///
    /// # Errors
    /// Out of memory.
    pub fn new(alloc: Global, state: FopState) -> Result<FopFrame, AllocError>
        requires { IsFopKept state.fop }
        ensures { IfOk result (λ frame. frame ≡ state) }
    {
        let state = Box::new(alloc, state)?;
        Ok(FopFrame { state })
    }

    /// The fop itself.
    pub fn into_state(self) -> FopState
        ensures is { result ≡ self }
        ensures kept { IsFopKept result.fop }
    {
        Box::into_inner(self.state)
    }
}

/// A job of a replicate node: the transaction, the copy that it waits for, and how many requests it may still send.
#[derive(Drop)]
pub struct JobState {
    pub txn: Txn,
    pub copy: Option<CopyRun>,
    pub requests: usize,
}

/// A job of a replicate node that waits, in a box too, and keeps its bounds whatever it is answered within bounds.
#[derive(Drop)]
pub struct SetFrame {
    state: Box<JobState>,
}

impl Model for SetFrame {
    ghost use Rattle.graph_nodes.specs.Kept.{IsJobKept};
    ghost use Rattle.graph_nodes.specs.declared.locals.JobState.{JobState};

    ghost Value = { JobState };

    ghost view = { λ f. f.state.value };

    ghost invariant = { λ f. IsJobKept f.state.value };
}

impl SetFrame {
    /// A job that keeps its bounds.
    ///
    /// # Errors
    /// Out of memory.
    pub fn new(alloc: Global, state: JobState) -> Result<SetFrame, AllocError>
        requires { IsJobKept state }
        ensures { IfOk result (λ frame. frame ≡ state) }
    {
        let state = Box::new(alloc, state)?;
        Ok(SetFrame { state })
    }

    /// The job itself.
    pub fn into_state(self) -> JobState
        ensures is { result ≡ self }
        ensures txn { IsTxnKept result.txn }
        ensures copy { IsCopyKept result.copy }
    {
        Box::into_inner(self.state)
    }
}

/// A read for which an io-cache node has asked below: its file, the pages that it asked for, from `first` up to `end`, and
/// the offset and the count of the read itself.
#[derive(Clone, Copy)]
pub struct PageRange {
    pub gfid: Gfid,
    pub first: u32,
    pub end: u32,
    pub offset: u32,
    pub count: u32,
}

/// Such a read, within the bounds of a file.
#[derive(Drop)]
pub struct PageRead {
    range: PageRange,
}

impl Model for PageRead {
    ghost use Rattle.graph_nodes.specs.Pages.{IsRange};
    ghost use Rattle.graph_nodes.specs.declared.locals.PageRange.{PageRange};

    ghost Value = { PageRange };

    ghost view = { λ r. r.range };

    ghost invariant = { λ r. IsRange r.range };
}

impl PageRead {
    /// A read within the bounds of a file.
    pub fn new(range: PageRange) -> PageRead
        requires { IsRange range }
        ensures { result ≡ range }
    {
        PageRead { range }
    }

    /// The read itself.
    pub fn range(&self) -> PageRange
        ensures is { result ≡ self.now }
        ensures within { IsRange result }
    {
        self.range
    }
}

/// What a frame keeps: of the root, of a pass node and of a client nothing, since it waits for the answer of the one thing
/// that it handed on; of an io-threads node what waits to be handed on; of an io-cache node the read that it has asked for;
/// of a distribute node its fop; and of a set's node its job.
#[derive(Drop)]
pub enum Local {
    Relay,
    Queued(Down),
    Pages(PageRead),
    Distribute(FopFrame),
    Set(SetFrame),
}
