ghost use Rattle.std.specs.Prelude.{◌≡◌, ◌≤◌, [], length, IfOk, OnErr, Some, None, Ok, Err};
ghost use Rattle.dht_linkto.specs.declared.names.DirNames.{DirNames};
ghost use Rattle.dht_fops.specs.Courses.{on_names, on_contents, on_number};
ghost use Rattle.dht_fops.specs.Fops.{fop_course};
ghost use Rattle.dht_fops.specs.code.Fops.{volume_of, course_on, goes_on_with, goes_held_with, learnt_with, asked_of, GivesOneJob};
ghost use Rattle.dht_fops.specs.code.Waits.{course_of};

use crate::begin::begin_fop;
use crate::dht_fop::DhtFop;
use crate::layouts::Layout;
use crate::resume::{held, resume};
use crate::state::{OnReply, State};
use crate::step::{DhtNext, Step};
use crate::volume::Volume;
use fop_types::{Fop, Gfid, Job, Seq, SetReply, Span};
use std::alloc::{AllocError, Global};
use std::collections::BTreeMap;
use std::mem;

impl DhtFop {
    /// Begins a fop of a call on a volume of this many sets, which have these names in their order. `root_sets` is the
    /// number of sets of the first graph; `kept` are the layouts that were read before, by directory. One with another
    /// number of places than there are sets is not looked at.
    ///
    /// # Errors
    /// Out of memory.
    pub fn begin(
        alloc: Global,
        call: u32,
        fop: Fop,
        sets: u8,
        names: &[Seq<u8>],
        root_sets: u8,
        kept: &BTreeMap<Gfid, Seq<Option<Span>>>,
    ) -> Result<(DhtFop, DhtNext), AllocError>
        requires root { 1 ≤ root_sets }
        requires within { root_sets ≤ sets }
        requires names { length names.now ≡ sets }
        ensures course { IfOk result (λ begun. course_on begun.0 begun.1 ≡ fop_course (volume_of call sets root_sets) names.now kept.now.entries fop) }
        ensures learnt { IfOk result (λ begun. begun.0.learnt ≡ []) }
        ensures asked { IfOk result (λ begun. begun.0.asked ≡ asked_of begun.1) }
        ensures one { IfOk result (λ begun. GivesOneJob begun.1) }
    {
        let volume = Volume {
            call,
            sets,
            root_sets,
        };
        let step = begin_fop(alloc, volume, fop, names, kept)?;
        let asked = step.turn.asked();
        match step.turn.into_next(alloc) {
            Ok(next) => {
                let begun = DhtFop {
                    volume,
                    learnt: Seq::new(alloc),
                    asked,
                    state: step.state,
                };
                Ok((begun, next))
            }
            Err(error) => {
                drop(step.state);
                Err(error)
            }
        }
    }

    /// The layouts that this fop has read.
    pub fn learnt(&self) -> &[Layout]
        ensures { result.now ≡ self.now.learnt }
    {
        self.learnt.as_slice()
    }

    /// The set that is asked for a job, `None` where none is.
    pub fn asked(&self) -> Option<u8>
        ensures { result ≡ self.now.asked }
    {
        self.asked
    }

    /// Takes the reply of the set that was asked for a job.
    ///
    /// # Errors
    /// Out of memory. The fop is then spent, and asks no set any more.
    pub fn answer(&mut self, alloc: Global, set: u8, reply: SetReply) -> Result<DhtNext, AllocError>
        requires { self.old.asked ≡ Some set }
        ensures course { IfOk result (λ next. course_on self.new next ≡ goes_on_with self.old reply) }
        ensures learnt { IfOk result (λ next. self.new.learnt ≡ learnt_with self.old reply) }
        ensures asked { IfOk result (λ next. self.new.asked ≡ asked_of next) }
        ensures spent { OnErr result (self.new.asked ≡ None) }
        ensures one { IfOk result (λ next. GivesOneJob next) }
    {
        prove!(self.asked == Some(set));
        self.asked = None;
        let state = mem::replace(&mut self.state, State::Reply(OnReply::End));
        let step = resume(alloc, self.volume, &mut self.learnt, state, reply)?;
        let next = self.go_on(alloc, step)?;
        Ok(next)
    }

    /// The call's hold was extended by the directory that was asked for. A fop that waits for no hold is spent by this
    /// call, and what it gives is no answer to it.
    ///
    /// # Errors
    /// Out of memory. The fop is then spent, and asks no set any more.
    pub fn held(&mut self, alloc: Global) -> Result<DhtNext, AllocError>
        ensures course { IfOk result (λ next. course_on self.new next ≡ goes_held_with self.old) }
        ensures learnt { IfOk result (λ next. self.new.learnt ≡ self.old.learnt) }
        ensures asked { IfOk result (λ next. self.new.asked ≡ asked_of next) }
        ensures spent { OnErr result (self.new.asked ≡ None) }
        ensures one { IfOk result (λ next. GivesOneJob next) }
    {
        self.asked = None;
        let state = mem::replace(&mut self.state, State::Reply(OnReply::End));
        let step = held(alloc, self.volume, state)?;
        let next = self.go_on(alloc, step)?;
        Ok(next)
    }

    // Waits as the step says, and gives its turn.
    fn go_on(&mut self, alloc: Global, step: Step) -> Result<DhtNext, AllocError>
        ensures course { IfOk result (λ next. course_on self.new next ≡ course_of self.old.volume step) }
        ensures learnt { self.new.learnt ≡ self.old.learnt }
        ensures asked { IfOk result (λ next. self.new.asked ≡ asked_of next) }
        ensures spent { OnErr result (self.new.asked ≡ self.old.asked) }
        ensures one { IfOk result (λ next. GivesOneJob next) }
    {
        let asked = step.turn.asked();
        drop(mem::replace(&mut self.state, step.state));
        let next = step.turn.into_next(alloc)?;
        self.asked = asked;
        Ok(next)
    }
}
