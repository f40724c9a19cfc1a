ghost use Rattle.std.specs.Prelude.{Bool, ◌≡◌, true, IfOk};
ghost use Rattle.xlator_law.specs.Law.{Promise, Cause, IsStep};
ghost use Rattle.xlator_law.specs.Law.Cause.{Enter, Reply, Go};
ghost use Rattle.xlator_law.specs.declared.step.Step.{Step};

use crate::step::Step;
use crate::winds::Entry;
use std::alloc::{AllocError, Global};

/// A translator over fops `F`, replies `R` and a context `C` that it shares with its graph.
///
/// Its law is the contract of its calls. `promise` is what a node promises of its frames, and no call
/// changes it: how many children and slots there are, what a fop costs, and which slots of a local wait
/// for an answer. `makes` is what a node's steps do beyond that, in the words of the node's own kind, with
/// the node and the context before and after the step. Each translator says it, since nothing else says
/// which step its cause makes.
///
/// The winds of a step go to children that there are, in slots that there are; the slots differ, and none
/// of them was unanswered. A local's unanswered slots are those from before, without the one that
/// answered, and those that were wound. The winds of a step, each counted as one and the cost of its fop
/// at the child, and what is left after the step, are together at most what was left before it. A frame
/// waits for winds, or for one thing that is no wind, and never for nothing; it waits for such a thing,
/// or unwinds, only with no slot unanswered.
pub trait Xlator<F, R, C> {
    /// What a frame keeps while it waits.
    type Local;

    ghost promise: { Self → Promise F Self.Local };

    ghost makes: { Self → C → Cause F R Self.Local → Step F R Self.Local → Self → C → Type 0 };

    /// Takes a fop that comes from above, as the first step of its frame. `entry` is the number of that
    /// frame and its call: a node that queues its frames keeps the number, and goes on with it later.
    ///
    /// # Errors
    /// Out of memory.
    fn enter(
        &mut self,
        alloc: Global,
        cx: &mut C,
        entry: Entry,
        fop: F,
    ) -> Result<Step<F, R, Self::Local>, AllocError>
        ensures step { IfOk result (λ step. IsStep (promise self.old) (Enter entry fop) step) }
        ensures made { IfOk result (λ step. makes self.old cx.old (Enter entry fop) step self.new cx.new) }
        ensures promise { promise self.new ≡ promise self.old };

    /// Takes the reply of the wind in that slot, which was unanswered, as a further step of the frame.
    ///
    /// # Errors
    /// Out of memory.
    fn resume(
        &mut self,
        alloc: Global,
        cx: &mut C,
        local: Self::Local,
        slot: u8,
        reply: R,
    ) -> Result<Step<F, R, Self::Local>, AllocError>
        requires own { (promise self.old).owns local ≡ true }
        requires slot { (promise self.old).unanswered local slot ≡ true }
        ensures step { IfOk result (λ step. IsStep (promise self.old) (Reply local slot reply) step) }
        ensures made { IfOk result (λ step. makes self.old cx.old (Reply local slot reply) step self.new cx.new) }
        ensures promise { promise self.new ≡ promise self.old };

    /// Goes on with a frame that waited for something that is no wind, which has come now. Of a frame that does
    /// not wait so nothing is said: a node whose frames never do may answer anything.
    ///
    /// # Errors
    /// Out of memory.
    fn go_on(
        &mut self,
        alloc: Global,
        cx: &mut C,
        local: Self::Local,
    ) -> Result<Step<F, R, Self::Local>, AllocError>
        requires own { (promise self.old).owns local ≡ true }
        ensures step { (promise self.old).waits local ≡ true → IfOk result (λ step. IsStep (promise self.old) (Go local) step) }
        ensures made { (promise self.old).waits local ≡ true → IfOk result (λ step. makes self.old cx.old (Go local) step self.new cx.new) }
        ensures promise { promise self.new ≡ promise self.old };

    /// The most winds that a frame of this fop causes, in itself and in all frames below it.
    fn cost(&self, fop: &F) -> u64
        ensures { result ≡ (promise self.now).cost fop.now };
}
