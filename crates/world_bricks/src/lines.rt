//! The lines of all bricks.
ghost use Rattle.std.specs.Prelude.{◌≡◌, ◌<◌, ◌-◌, ◌^◌, ◌∷◌, ◌++◌, [], ◌≤◌, true, false, length, is_some, slice_get, IfOk, OnOk, OnErr, MatchOption};
ghost use Rattle.hub_tables.specs.SmallSets.{numbers, numbers_where};
ghost use Rattle.world_bricks.specs.Lines.{empty_line, new_lines, put_by, with_sent, next_input, may_serve, shortened_by, served_by, outputs_by, arrived_of, next_output, may_arrive, with_arrival};
ghost use Rattle.world_bricks.specs.Worlds.{Serves};

use crate::line::Line;
use brick_machine::Brick;
use bytes::Bytes;
use fop_types::Seq;
use graph_build::Plan;
use hub_calls::{SentLine, SmallSet, named_brick};
use script_lang::Script;
use std::alloc::{AllocError, Global};
use std::marker::Model;

/// The bricks with their lines. `delivered` is how many of the sent inputs are in the lines.
#[derive(Drop)]
pub struct Lines {
    bricks: Vec<Brick>,
    queues: Vec<Line>,
    delivered: usize,
}

impl Model for Lines {
    ghost use Rattle.world_bricks.specs.Lines.{LinesState};

    ghost Value = { LinesState };

    ghost view = { λ l. record { bricks = l.bricks.items; queues = l.queues.items; delivered = l.delivered } };
}

impl Lines {
    /// The bricks of a script, with what was sent to them in their lines.
    ///
    /// # Errors
    /// Out of memory.
    pub(crate) fn new(
        alloc: Global,
        script: &Script,
        plans: &[Plan],
        sent: &[SentLine],
    ) -> Result<Lines, AllocError>
        requires { length script.now.bricks ≤ 64 }
        ensures { IfOk result (λ l. l ≡ with_sent (new_lines script.now plans.now (length script.now.bricks)) sent.now) }
    {
        let mut lines = Lines {
            bricks: Vec::new(alloc),
            queues: Vec::new(alloc),
            delivered: 0,
        };
        let filled = lines.fill(alloc, script, plans, sent);
        filled.and(Ok(lines))
    }

    fn fill(
        &mut self,
        alloc: Global,
        script: &Script,
        plans: &[Plan],
        sent: &[SentLine],
    ) -> Result<(), AllocError>
        requires none { self.old ≡ new_lines script.now plans.now 0 }
        requires few { length script.now.bricks ≤ 64 }
        ensures { OnOk result (self.new ≡ with_sent (new_lines script.now plans.now (length script.now.bricks)) sent.now) }
    {
        self.add_bricks(alloc, script, plans)?;
        self.deliver(sent)
    }

    #[tactic(auto, using(crate::proofs::Queues::next_brick))]
    fn add_bricks(
        &mut self,
        alloc: Global,
        script: &Script,
        plans: &[Plan],
    ) -> Result<(), AllocError>
        requires none { self.old ≡ new_lines script.now plans.now 0 }
        requires few { length script.now.bricks ≤ 64 }
        ensures { OnOk result (self.new ≡ new_lines script.now plans.now (length script.now.bricks)) }
    {
        let many = script.bricks.len() as u8;
        for number in 0..many {
            let brick = named_brick(alloc, script, plans, number)?;
            self.add(alloc, brick)?;
        }
        Ok(())
    }

    // A brick with an empty line is put to the others.
    fn add(&mut self, alloc: Global, brick: Brick) -> Result<(), AllocError>
        ensures { OnOk result (self.new ≡ record self.old { bricks = self.old.bricks ++ brick ∷ []; queues = self.old.queues ++ empty_line ∷ [] }) }
    {
        self.bricks.push(brick)?;
        self.queues.push(Line::new(alloc))?;
        Ok(())
    }

    // An input was sent to a brick.
    fn put(&mut self, sent: &SentLine) -> Result<(), AllocError>
        ensures bricks { self.new.bricks ≡ self.old.bricks }
        ensures ok { OnOk result (self.new ≡ record self.old { queues = put_by (slice_get self.old.queues sent.now.brick) sent.now self.old.queues }) }
    {
        match self.queues.get_mut(sent.brick as usize) {
            Some(queue) => {
                queue.put(sent)?;
                Ok(())
            }
            None => Ok(()),
        }
    }

    /// Puts into the lines what was sent last.
    ///
    /// # Errors
    /// Out of memory; some of it may be in the lines.
    pub(crate) fn deliver(&mut self, sent: &[SentLine]) -> Result<(), AllocError>
        ensures bricks { self.new.bricks ≡ self.old.bricks }
        ensures ok { OnOk result (self.new ≡ with_sent self.old sent.now) }
    {
        for at in self.delivered..sent.len() {
            self.put(&sent[at])?;
        }
        self.delivered = sent.len();
        Ok(())
    }

    fn has_input(&self, brick: u8) -> bool
        ensures { result ≡ is_some (next_input self.now brick) }
    {
        match self.queues.get(brick as usize) {
            Some(queue) => queue.has_input(),
            None => false,
        }
    }

    // Whether there is this brick, with an input.
    fn may_serve(&self, brick: u8) -> bool
        ensures { result ≡ may_serve self.now brick }
    {
        match self.bricks.get(brick as usize) {
            Some(_) => self.has_input(brick),
            None => false,
        }
    }

    // How many outputs of a brick have arrived.
    fn arrived(&self, brick: u8) -> usize
        ensures { result ≡ arrived_of self.now brick }
    {
        match self.queues.get(brick as usize) {
            Some(queue) => queue.arrived(),
            None => 0,
        }
    }

    // The outputs of a brick, from the first one on.
    fn outputs(&self, brick: u8) -> &[Bytes]
        ensures { result.now ≡ outputs_by (slice_get self.now.bricks brick) }
    {
        match self.bricks.get(brick as usize) {
            Some(at) => at.outputs(),
            None => &[],
        }
    }

    // Whether a brick has an output that has not arrived.
    #[tactic(auto, using(crate::proofs::Picked::some_output))]
    fn may_arrive(&self, brick: u8) -> bool
        ensures { result ≡ may_arrive self.now brick }
    {
        self.arrived(brick) < self.outputs(brick).len()
    }

    /// The bricks with an input, of which a script has 64 at most.
    #[tactic(auto, using(crate::proofs::Picked::none_serving, crate::proofs::Picked::next_serving, crate::proofs::Picked::not_serving))]
    pub(crate) fn serving(&self) -> SmallSet
        ensures { numbers result ≡ numbers_where (may_serve self.now) }
    {
        let mut serving = SmallSet::new();
        for brick in 0..self.bricks.len().min(64) as u8 {
            if !self.may_serve(brick) {
                continue;
            }
            serving = serving.with(brick);
        }
        serving
    }

    /// The bricks with an output that has not arrived.
    #[tactic(auto, using(crate::proofs::Picked::none_arriving, crate::proofs::Picked::next_arriving, crate::proofs::Picked::not_arriving))]
    pub(crate) fn arriving(&self) -> SmallSet
        ensures { numbers result ≡ numbers_where (may_arrive self.now) }
    {
        let mut arriving = SmallSet::new();
        for brick in 0..self.bricks.len().min(64) as u8 {
            if !self.may_arrive(brick) {
                continue;
            }
            arriving = arriving.with(brick);
        }
        arriving
    }

    // The next output of a brick, which shares its bytes with the brick's list.
    fn next_output(&self, brick: u8) -> Result<Option<Bytes>, AllocError>
        ensures { IfOk result (λ o. o ≡ next_output self.now brick) }
    {
        match self.outputs(brick).get(self.arrived(brick)) {
            Some(output) => Ok(Some(output.clone()?)),
            None => Ok(None),
        }
    }

    // An output of a brick has arrived.
    fn note_arrival(&mut self, brick: u8)
        requires { arrived_of self.old brick < 2 ^ 64 - 1 }
        ensures { self.new ≡ with_arrival self.old brick }
    {
        match self.queues.get_mut(brick as usize) {
            Some(queue) => queue.arrive(),
            None => {}
        }
    }

    /// Takes the next output of a brick, which shares its bytes with the brick's list. `None` comes exactly where it has
    /// none left, or is not there.
    ///
    /// # Errors
    /// Out of memory, and nothing changed.
    pub(crate) fn take_output(&mut self, brick: u8) -> Result<Option<Bytes>, AllocError>
        ensures output { IfOk result (λ o. o ≡ next_output self.old brick) }
        ensures taken { IfOk result (λ o. MatchOption o (self.new ≡ self.old) (λ _. self.new ≡ with_arrival self.old brick)) }
        ensures err { OnErr result (self.new ≡ self.old) }
    {
        if self.arrived(brick) >= self.outputs(brick).len() {
            return Ok(None);
        }
        match self.next_output(brick)? {
            Some(output) => {
                self.note_arrival(brick);
                Ok(Some(output))
            }
            None => Ok(None),
        }
    }

    // Takes a brick's next input.
    fn take_input(&mut self, brick: u8) -> Option<Bytes>
        ensures input { result ≡ next_input self.old brick }
        ensures rest { self.new ≡ record self.old { queues = shortened_by (slice_get self.old.queues brick) brick self.old.queues } }
    {
        match self.queues.get_mut(brick as usize) {
            Some(queue) => queue.take(),
            None => None,
        }
    }

    /// A brick serves its next input. It is false, with nothing changed, exactly where it has none, or is not there.
    ///
    /// # Errors
    /// Out of memory: the brick is spent.
    pub(crate) fn serve(&mut self, alloc: Global, brick: u8) -> Result<bool, AllocError>
        ensures there { IfOk result (λ did. did ≡ may_serve self.old brick) }
        ensures serves { IfOk result (λ did. did ≡ true → Serves brick self.old self.new) }
        ensures unchanged { IfOk result (λ did. did ≡ false → self.new ≡ self.old) }
    {
        if !self.may_serve(brick) {
            return Ok(false);
        }
        match self.take_input(brick) {
            Some(input) => {
                self.serve_input(alloc, brick, input)?;
                Ok(true)
            }
            None => unreachable!(),
        }
    }

    fn serve_input(&mut self, alloc: Global, brick: u8, input: Bytes) -> Result<(), AllocError>
        ensures { OnOk result (self.new ≡ record self.old { bricks = served_by (slice_get self.old.bricks brick) brick input self.old.bricks }) }
    {
        match self.bricks.get_mut(brick as usize) {
            Some(at) => at.serve(alloc, input),
            None => {
                drop(input);
                Ok(())
            }
        }
    }

    /// The bricks, with nothing copied.
    pub(crate) fn into_bricks(self) -> Seq<Brick>
        ensures { result ≡ self.bricks }
    {
        let Lines { bricks, queues, .. } = self;
        drop(queues);
        Seq::from_vec(bricks)
    }
}
