//! Three translators that meet the law, as models for those of a graph: one that hands each fop on to its
//! child, one that sends it to two children at once, and one that waits before it hands it on.
ghost use Rattle.std.specs.Prelude.{IfOk, [], ◌∷◌};
ghost use Rattle.xlator_law.specs.Law.{WindsThese};

use crate::step::Step;
use crate::winds::Entry;
use crate::xlator::Xlator;
use std::alloc::{AllocError, Global};

// A step that hands one fop on to child 0, in slot 0.
fn one<F, R, L>(alloc: Global, fop: F, local: L) -> Result<Step<F, R, L>, AllocError>
where
    F: Drop,
    L: Drop,
    ensures { IfOk result (λ step. WindsThese ((0, 0, fop) ∷ []) local step) }
{
    let mut winds = Vec::new(alloc);
    winds.push((0, 0, fop))?;
    Ok(Step::Wind(winds, local))
}

/// Hands each fop on to its only child, and the child's reply back. `below` is the most that a fop costs
/// at the child, `breadth` the most winds that a frame of the child and all below it have open at once.
#[derive(Clone, Copy)]
pub struct Relay {
    pub below: u32,
    pub breadth: u32,
}

impl<F: Drop, R, C> Xlator<F, R, C> for Relay {
    type Local = ();

    ghost use Rattle.xlator_law.specs.Samples.{relay_promise, relay_makes};

    ghost promise = { relay_promise };

    ghost makes = { relay_makes };

    fn enter(
        &mut self,
        alloc: Global,
        _cx: &mut C,
        _entry: Entry,
        fop: F,
    ) -> Result<Step<F, R, ()>, AllocError> {
        let step = one(alloc, fop, ())?;
        Ok(step)
    }

    fn resume(
        &mut self,
        _alloc: Global,
        _cx: &mut C,
        _local: (),
        _slot: u8,
        reply: R,
    ) -> Result<Step<F, R, ()>, AllocError> {
        Ok(Step::Unwind(reply))
    }

    fn go_on(
        &mut self,
        _alloc: Global,
        _cx: &mut C,
        local: (),
    ) -> Result<Step<F, R, ()>, AllocError> {
        Ok(Step::Wait(local))
    }

    fn cost(&self, _fop: &F) -> u64 {
        self.below as u64 + 1
    }
}

/// Which of its two children a [`Pair`] still waits for.
#[derive(Clone, Copy)]
pub struct Waits {
    pub first: bool,
    pub second: bool,
}

/// Sends each fop to both of its children at once, in slots 0 and 1, and answers with the reply that
/// comes last. `below` is the most that a fop costs at a child, `breadth` the most winds that a frame of a
/// child and all below it have open at once.
#[derive(Clone, Copy)]
pub struct Pair {
    pub below: u32,
    pub breadth: u32,
}

impl<F: Copy + Drop, R: Drop, C> Xlator<F, R, C> for Pair {
    type Local = Waits;

    ghost use Rattle.xlator_law.specs.Samples.{pair_promise, pair_makes};

    ghost promise = { pair_promise };

    ghost makes = { pair_makes };

    fn enter(
        &mut self,
        alloc: Global,
        _cx: &mut C,
        _entry: Entry,
        fop: F,
    ) -> Result<Step<F, R, Waits>, AllocError> {
        let mut winds = Vec::new(alloc);
        winds.push((0, 0, fop))?;
        winds.push((1, 1, fop))?;
        let both = Waits {
            first: true,
            second: true,
        };
        Ok(Step::Wind(winds, both))
    }

    fn resume(
        &mut self,
        alloc: Global,
        _cx: &mut C,
        local: Waits,
        slot: u8,
        reply: R,
    ) -> Result<Step<F, R, Waits>, AllocError> {
        let rest = Waits {
            first: local.first && slot != 0,
            second: local.second && slot != 1,
        };
        if rest.first || rest.second {
            return Ok(Step::Wind(Vec::new(alloc), rest));
        }
        Ok(Step::Unwind(reply))
    }

    fn go_on(
        &mut self,
        _alloc: Global,
        _cx: &mut C,
        local: Waits,
    ) -> Result<Step<F, R, Waits>, AllocError> {
        Ok(Step::Wait(local))
    }

    fn cost(&self, _fop: &F) -> u64 {
        self.below as u64 * 2 + 2
    }
}

/// What a [`Gate`] keeps: a fop that it holds back, or that the fop was handed on.
#[derive(Drop)]
pub enum Gated<F> {
    Held(F),
    Passed,
}

/// Holds each fop back until its frame goes on, hands it on to its only child then, and the child's reply
/// back. `below` is the most that a fop costs at the child, `breadth` the most winds that a frame of the
/// child and all below it have open at once.
#[derive(Clone, Copy)]
pub struct Gate {
    pub below: u32,
    pub breadth: u32,
}

impl<F: Drop, R, C> Xlator<F, R, C> for Gate {
    type Local = Gated<F>;

    ghost use Rattle.xlator_law.specs.Samples.{gate_promise, gate_makes};

    ghost promise = { gate_promise };

    ghost makes = { gate_makes };

    fn enter(
        &mut self,
        _alloc: Global,
        _cx: &mut C,
        _entry: Entry,
        fop: F,
    ) -> Result<Step<F, R, Gated<F>>, AllocError> {
        Ok(Step::Wait(Gated::Held(fop)))
    }

    fn resume(
        &mut self,
        _alloc: Global,
        _cx: &mut C,
        _local: Gated<F>,
        _slot: u8,
        reply: R,
    ) -> Result<Step<F, R, Gated<F>>, AllocError> {
        Ok(Step::Unwind(reply))
    }

    fn go_on(
        &mut self,
        alloc: Global,
        _cx: &mut C,
        local: Gated<F>,
    ) -> Result<Step<F, R, Gated<F>>, AllocError> {
        match local {
            Gated::Held(fop) => {
                let step = one(alloc, fop, Gated::Passed)?;
                Ok(step)
            }
            Gated::Passed => Ok(Step::Wait(Gated::Passed)),
        }
    }

    fn cost(&self, _fop: &F) -> u64 {
        self.below as u64 + 1
    }
}
