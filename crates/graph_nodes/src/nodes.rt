//! The nodes of a graph as one translator, and what several kinds share.
ghost use Rattle.std.specs.Prelude.{ℕ, ◌≡◌, IfOk, OnOk, [], ◌∷◌, true, length};
ghost use Rattle.xlator_law.specs.Law.{WindsThese, IsStep};
ghost use Rattle.xlator_law.specs.Law.Cause.{Enter, Reply, Go};
ghost use Rattle.graph_nodes.specs.Distribute.{IsBegun as IsFopBegun};
ghost use Rattle.graph_nodes.specs.Nodes.{FopResumes, FopGoes, JobResumes};
ghost use Rattle.graph_nodes.specs.Promises.{owns_by, unanswered_of, waits_of, promise_of};
ghost use Rattle.graph_nodes.specs.Replicate.{IsBegun as IsJobBegun};

pub mod caching;
pub mod client;
mod copies;
pub mod distribute;
mod distribute_asks;
mod distribute_begins;
pub mod pass;
pub mod queuing;
mod records;
pub mod replicate;
mod replicate_copies;
mod replicate_sends;
pub mod root;
mod winds;

use crate::context::Context;
use crate::costs::{Shape, cost_at};
use crate::kinds::{Distribute, Kind, Node, Replicate};
use crate::locals::Local;
use afr_transaction::transactions_go_on;
use fop_types::{IoError, Seq};
use graph_items::{Down, Up};
use self_heal::copies_go_on;
use std::alloc::{AllocError, Global};
use xlator_law::{Entry, Step, Xlator};

// A step that hands one thing on to a child, in slot 0.
pub(crate) fn one<F, R, L>(
    alloc: Global,
    child: u16,
    down: F,
    local: L,
) -> Result<Step<F, R, L>, AllocError>
where
    F: Drop,
    L: Drop,
    ensures { IfOk result (λ step. WindsThese ((child, 0, down) ∷ []) local step) }
{
    let mut winds = Vec::new(alloc);
    winds.push((child, 0, down))?;
    Ok(Step::Wind(winds, local))
}

// The error of a set that lacks a quorum, of which no brick is known to be lost.
pub(crate) fn lost(alloc: Global, set: u8) -> IoError
    ensures { result ≡ IoError.Quorum set [] }
{
    IoError::Quorum {
        set,
        lost: Seq::new(alloc),
    }
}

// A fop enters a distribute node.
fn enter_fop(
    node: &Distribute,
    alloc: Global,
    cx: &mut Context,
    entry: Entry,
    down: Down,
) -> Result<Step<Down, Up, Local>, AllocError>
    ensures made { IfOk result (λ step. IsFopBegun node.now cx.old entry down step cx.new) }
    ensures lawful { IfOk result (λ step. (weight breadth : ℕ) → IsStep (promise_of Shape.Distribute node.now.sets weight breadth) (Enter entry down) step) }
{
    node.enter(alloc, cx, entry, down)
}

// A job enters the node of a set.
fn enter_job(
    node: &Replicate,
    alloc: Global,
    cx: &mut Context,
    entry: Entry,
    down: Down,
) -> Result<Step<Down, Up, Local>, AllocError>
    ensures made { IfOk result (λ step. IsJobBegun node.now.plan cx.old entry.call down step cx.new) }
    ensures lawful { IfOk result (λ step. (sets weight breadth : ℕ) → IsStep (promise_of (Shape.Set (length node.now.plan.bricks)) sets weight breadth) (Enter entry down) step) }
{
    transactions_go_on();
    copies_go_on();
    node.enter(alloc, cx, entry, down)
}

// A fop under way takes a reply.
fn take_fop(
    node: &mut Distribute,
    alloc: Global,
    cx: &mut Context,
    local: Local,
    reply: Up,
) -> Result<Step<Down, Up, Local>, AllocError>
    requires own { owns_by Shape.Distribute local ≡ true }
    ensures step { IfOk result (λ step. FopResumes node.old cx.old local reply step node.new cx.new) }
    ensures sets { node.new.sets ≡ node.old.sets }
{
    match local {
        Local::Distribute(frame) => node.resume(alloc, cx, frame, reply),
        Local::Relay => unreachable!(),
        Local::Queued(_) => unreachable!(),
        Local::Pages(_) => unreachable!(),
        Local::Set(_) => unreachable!(),
    }
}

fn resume_fop(
    node: &mut Distribute,
    alloc: Global,
    cx: &mut Context,
    local: Local,
    slot: u8,
    reply: Up,
) -> Result<Step<Down, Up, Local>, AllocError>
    requires own { owns_by Shape.Distribute local ≡ true }
    requires asked { unanswered_of local slot ≡ true }
    ensures made { IfOk result (λ step. FopResumes node.old cx.old local reply step node.new cx.new) }
    ensures lawful { IfOk result (λ step. (weight breadth : ℕ) → IsStep (promise_of Shape.Distribute node.old.sets weight breadth) (Reply local slot reply) step) }
    ensures sets { node.new.sets ≡ node.old.sets }
{
    let _ = slot;
    take_fop(node, alloc, cx, local, reply)
}

// A fop goes on whose hold was extended.
fn extend_fop(
    node: &Distribute,
    alloc: Global,
    cx: &mut Context,
    local: Local,
) -> Result<Step<Down, Up, Local>, AllocError>
    requires own { owns_by Shape.Distribute local ≡ true }
    ensures { IfOk result (λ step. FopGoes node.now cx.old local step cx.new) }
{
    match local {
        Local::Distribute(frame) => node.go_on(alloc, cx, frame),
        Local::Relay => unreachable!(),
        Local::Queued(_) => unreachable!(),
        Local::Pages(_) => unreachable!(),
        Local::Set(_) => unreachable!(),
    }
}

fn go_on_fop(
    node: &Distribute,
    alloc: Global,
    cx: &mut Context,
    local: Local,
) -> Result<Step<Down, Up, Local>, AllocError>
    requires own { owns_by Shape.Distribute local ≡ true }
    ensures made { IfOk result (λ step. FopGoes node.now cx.old local step cx.new) }
    ensures lawful { IfOk result (λ step. (weight breadth : ℕ) → waits_of local ≡ true → IsStep (promise_of Shape.Distribute node.now.sets weight breadth) (Go local) step) }
{
    extend_fop(node, alloc, cx, local)
}

// A job under way takes the reply of a slot.
#[tactic(auto, using(crate::proofs::AskedSlots::slot_below))]
fn take_job(
    node: &Replicate,
    alloc: Global,
    cx: &mut Context,
    local: Local,
    slot: u8,
    reply: Up,
) -> Result<Step<Down, Up, Local>, AllocError>
    requires own { owns_by (Shape.Set (length node.now.plan.bricks)) local ≡ true }
    requires asked { unanswered_of local slot ≡ true }
    ensures { IfOk result (λ step. JobResumes node.now cx.old local slot reply step cx.new) }
{
    match local {
        Local::Set(frame) => node.resume(alloc, cx, frame, slot, reply),
        Local::Relay => unreachable!(),
        Local::Queued(_) => unreachable!(),
        Local::Pages(_) => unreachable!(),
        Local::Distribute(_) => unreachable!(),
    }
}

fn resume_job(
    node: &Replicate,
    alloc: Global,
    cx: &mut Context,
    local: Local,
    slot: u8,
    reply: Up,
) -> Result<Step<Down, Up, Local>, AllocError>
    requires own { owns_by (Shape.Set (length node.now.plan.bricks)) local ≡ true }
    requires asked { unanswered_of local slot ≡ true }
    ensures made { IfOk result (λ step. JobResumes node.now cx.old local slot reply step cx.new) }
    ensures lawful { IfOk result (λ step. (sets weight breadth : ℕ) → IsStep (promise_of (Shape.Set (length node.now.plan.bricks)) sets weight breadth) (Reply local slot reply) step) }
{
    transactions_go_on();
    copies_go_on();
    take_job(node, alloc, cx, local, slot, reply)
}

impl Xlator<Down, Up, Context> for Node {
    type Local = Local;

    ghost use Rattle.graph_nodes.specs.Nodes.{node_makes};
    ghost use Rattle.graph_nodes.specs.Promises.{node_promise};

    ghost promise = { node_promise };

    ghost makes = { node_makes };

    fn enter(
        &mut self,
        alloc: Global,
        cx: &mut Context,
        entry: Entry,
        fop: Down,
    ) -> Result<Step<Down, Up, Local>, AllocError> {
        match &mut self.kind {
            Kind::Root => root::enter(alloc, fop),
            Kind::Pass => pass::enter(alloc, fop),
            Kind::IoThreads(node) => node.enter(alloc, cx, entry, fop),
            Kind::IoCache(node) => node.enter(alloc, fop),
            Kind::Distribute(node) => enter_fop(node, alloc, cx, entry, fop),
            Kind::Replicate(node) => enter_job(node, alloc, cx, entry, fop),
            Kind::Client(node) => node.enter(alloc, &cx.clients, fop),
        }
    }

    fn resume(
        &mut self,
        alloc: Global,
        cx: &mut Context,
        local: Local,
        slot: u8,
        reply: Up,
    ) -> Result<Step<Down, Up, Local>, AllocError> {
        match &mut self.kind {
            Kind::Root => {
                drop(local);
                Ok(root::resume(cx, reply))
            }
            Kind::Pass => {
                drop(local);
                Ok(pass::resume(reply))
            }
            Kind::IoThreads(_) => {
                drop(local);
                Ok(pass::resume(reply))
            }
            Kind::IoCache(node) => node.resume(alloc, local, reply),
            Kind::Distribute(node) => resume_fop(node, alloc, cx, local, slot, reply),
            Kind::Replicate(node) => resume_job(node, alloc, cx, local, slot, reply),
            Kind::Client(_) => {
                drop(local);
                Ok(client::resume(reply))
            }
        }
    }

    fn go_on(
        &mut self,
        alloc: Global,
        cx: &mut Context,
        local: Local,
    ) -> Result<Step<Down, Up, Local>, AllocError> {
        match &self.kind {
            Kind::Distribute(node) => go_on_fop(node, alloc, cx, local),
            Kind::Root => Ok(Step::Wait(local)),
            Kind::Pass => Ok(Step::Wait(local)),
            Kind::IoThreads(_) => queuing::go_on(alloc, local),
            Kind::IoCache(_) => Ok(Step::Wait(local)),
            Kind::Replicate(_) => Ok(Step::Wait(local)),
            Kind::Client(_) => Ok(Step::Wait(local)),
        }
    }

    fn cost(&self, fop: &Down) -> u64 {
        cost_at(self, fop)
    }
}
