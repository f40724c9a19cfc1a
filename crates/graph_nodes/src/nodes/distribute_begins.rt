//! How a fop begins at the distribute node: over the sets of the first graph, if it names no others.
ghost use Rattle.std.specs.Prelude.{◌≡◌, ◌≤◌, IfOk, true};
ghost use Rattle.fop_types.specs.Bounds.{IsFop};
ghost use Rattle.graph_nodes.specs.Distribute.{Begins, IsFopBegun, are_below, names_sets};

use crate::context::Context;
use crate::costs::{fop_units, jobs_for};
use crate::kinds::Distribute;
use crate::locals::{FopState, Local};
use crate::nodes::distribute::refuse;
use dht_fops::{DhtFop, fops_keep_bounds};
use fop_types::{Fop, OpenFd};
use graph_items::{Down, Up};
use std::alloc::{AllocError, Global};
use xlator_law::{Entry, Step};

// Whether the sets of descriptors are among so many.
fn are_below(fds: &[OpenFd], sets: u8) -> bool
    ensures { result ≡ are_below sets fds.now }
{
    for open_fd in fds {
        if open_fd.set >= sets {
            return false;
        }
    }
    true
}

// Whether the sets that a fop names are among so many.
fn names_sets(fop: &Fop, sets: u8) -> bool
    ensures { result ≡ names_sets sets fop.now }
{
    match fop {
        Fop::Open { object, .. } => object.set < sets,
        Fop::Stat { object } => object.set < sets,
        Fop::Chmod { object, .. } => object.set < sets,
        Fop::Truncate { object, .. } => object.set < sets,
        Fop::SetAttr { object, .. } => object.set < sets,
        Fop::GetAttr { object, .. } => object.set < sets,
        Fop::DelAttr { object, .. } => object.set < sets,
        Fop::Read { object, .. } => object.set < sets,
        Fop::Write { object, .. } => object.set < sets,
        Fop::Migrate { fds } => are_below(fds.as_slice(), sets),
        _ => true,
    }
}

impl Distribute {
    /// A fop begins where the first graph's sets are sets of this node, and it names none but those.
    ///
    /// # Errors
    /// Out of memory.
    pub(crate) fn begin(
        &self,
        alloc: Global,
        cx: &mut Context,
        entry: Entry,
        fop: Fop,
    ) -> Result<Step<Down, Up, Local>, AllocError>
        requires fop { IsFop fop }
        ensures { IfOk result (λ step. Begins self.now cx.old entry fop step cx.new) }
    {
        if 1 <= cx.root_sets && cx.root_sets <= self.sets && names_sets(&fop, self.sets) {
            self.begin_over(alloc, cx, entry, fop)
        } else {
            Ok(refuse(alloc, fop))
        }
    }

    fn begin_over(
        &self,
        alloc: Global,
        cx: &mut Context,
        entry: Entry,
        fop: Fop,
    ) -> Result<Step<Down, Up, Local>, AllocError>
        requires fop { IsFop fop }
        requires some { 1 ≤ cx.old.root_sets }
        requires within { cx.old.root_sets ≤ self.now.sets }
        requires named { names_sets self.now.sets fop ≡ true }
        ensures { IfOk result (λ step. IsFopBegun self.now cx.old entry fop step cx.new) }
    {
        fops_keep_bounds();
        let jobs = jobs_for(self.sets, fop_units(&fop, self.sets));
        let (fop, next) = DhtFop::begin(
            alloc,
            entry.call,
            fop,
            self.sets,
            self.names.as_slice(),
            cx.root_sets,
            &self.kept,
        )?;
        let state = FopState {
            entry,
            fop,
            learnt: 0,
            jobs,
        };
        self.go(alloc, cx, state, next)
    }
}
