//! The sample translators as kinds of one node type, as the nodes of a graph are.
ghost use Rattle.std.specs.Prelude.{IfOk, true, [], ◌∷◌};
ghost use Rattle.xlator_law.specs.Law.{WindsThese, IsStep};
ghost use Rattle.xlator_law.specs.Law.Cause.{Reply};
ghost use Rattle.xlator_law.specs.Samples.{is_some, rest_of};
ghost use Rattle.frame_trees.specs.Kinds.{node_promise, PairAnswers};

use std::alloc::{AllocError, Global};
use xlator_law::samples::{Gated, Waits};
use xlator_law::{Entry, Step, Xlator};

#[derive(Clone, Copy)]
pub enum Kind {
    Relay,
    Pair,
    Gate,
}

/// A node of a tree. `below` is the most that a fop costs at a child, `breadth` the most winds that a frame
/// of a child and all below it have open at once.
#[derive(Clone, Copy)]
pub struct Node {
    pub kind: Kind,
    pub below: u32,
    pub breadth: u32,
}

/// What a frame of a node keeps.
#[derive(Drop)]
pub enum Kept {
    Relay,
    Pair(Waits),
    Gate(Gated<u32>),
}

// A step that hands one fop on to child 0, in slot 0.
fn one(alloc: Global, fop: u32, local: Kept) -> Result<Step<u32, u8, Kept>, AllocError>
    ensures { IfOk result (λ step. WindsThese ((0, 0, fop) ∷ []) local step) }
{
    let mut winds = Vec::new(alloc);
    winds.push((0, 0, fop))?;
    Ok(Step::Wind(winds, local))
}

// A step that hands one fop on to children 0 and 1, in slots 0 and 1.
fn two(alloc: Global, fop: u32) -> Result<Step<u32, u8, Kept>, AllocError>
    ensures { IfOk result (λ step. WindsThese ((0, 0, fop) ∷ (1, 1, fop) ∷ []) (Kept.Pair (record { first = true; second = true })) step) }
{
    let mut winds = Vec::new(alloc);
    winds.push((0, 0, fop))?;
    winds.push((1, 1, fop))?;
    let both = Waits {
        first: true,
        second: true,
    };
    Ok(Step::Wind(winds, Kept::Pair(both)))
}

// What a pair does with the answer of a slot.
fn pair_answered(alloc: Global, waits: Waits, slot: u8, reply: u8) -> Step<u32, u8, Kept>
    ensures made { PairAnswers (is_some (rest_of waits slot)) (rest_of waits slot) reply result }
    ensures lawful { (node : Node) → IsStep (node_promise node) (Reply (Kept.Pair waits) slot reply) result }
{
    let rest = Waits {
        first: waits.first && slot != 0,
        second: waits.second && slot != 1,
    };
    if rest.first || rest.second {
        return Step::Wind(Vec::new(alloc), Kept::Pair(rest));
    }
    Step::Unwind(reply)
}

impl Xlator<u32, u8, ()> for Node {
    type Local = Kept;

    ghost use Rattle.frame_trees.specs.Kinds.{node_promise, node_makes};

    ghost promise = { node_promise };

    ghost makes = { node_makes };

    fn enter(
        &mut self,
        alloc: Global,
        _cx: &mut (),
        _entry: Entry,
        fop: u32,
    ) -> Result<Step<u32, u8, Kept>, AllocError> {
        match self.kind {
            Kind::Relay => {
                let step = one(alloc, fop, Kept::Relay)?;
                Ok(step)
            }
            Kind::Pair => {
                let step = two(alloc, fop)?;
                Ok(step)
            }
            Kind::Gate => Ok(Step::Wait(Kept::Gate(Gated::Held(fop)))),
        }
    }

    fn resume(
        &mut self,
        alloc: Global,
        _cx: &mut (),
        local: Kept,
        slot: u8,
        reply: u8,
    ) -> Result<Step<u32, u8, Kept>, AllocError> {
        match local {
            Kept::Relay => Ok(Step::Unwind(reply)),
            Kept::Pair(waits) => {
                let step = pair_answered(alloc, waits, slot, reply);
                Ok(step)
            }
            Kept::Gate(_) => Ok(Step::Unwind(reply)),
        }
    }

    fn go_on(
        &mut self,
        alloc: Global,
        _cx: &mut (),
        local: Kept,
    ) -> Result<Step<u32, u8, Kept>, AllocError> {
        match local {
            Kept::Gate(Gated::Held(fop)) => {
                let step = one(alloc, fop, Kept::Gate(Gated::Passed))?;
                Ok(step)
            }
            other => Ok(Step::Wait(other)),
        }
    }

    fn cost(&self, _fop: &u32) -> u64 {
        match self.kind {
            Kind::Relay => self.below as u64 + 1,
            Kind::Pair => self.below as u64 * 2 + 2,
            Kind::Gate => self.below as u64 + 1,
        }
    }
}
