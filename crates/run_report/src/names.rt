//! The names that a report shows in place of numbers.
ghost use Rattle.std.specs.Prelude.{◌≡◌, slice_get, option_copied, IfOk};
ghost use Rattle.run_report.specs.Reports.{brick_name, session_name, set_among, set_name, replicas_of};

use fop_types::{Seq, SetPlan};
use graph_build::Plan;
use script_lang::Script;
use std::alloc::{AllocError, Global};
use std::marker::Model;

fn set_in(plan: &Plan, set: u8) -> Option<&SetPlan>
    ensures { option_copied result ≡ slice_get plan.now.sets set }
{
    plan.sets.as_slice().get(set as usize)
}

/// A script with its plans, and the volfile of each graph of a run.
#[derive(Drop)]
pub struct Names<'a> {
    pub script: &'a Script,
    pub plans: &'a [Plan],
    pub volfiles: Vec<u8>,
}

impl<'a> Model for Names<'a> {
    ghost use Rattle.run_report.specs.Reports.{NamesState};

    ghost Value = { NamesState };

    ghost view = { λ n. record { script = n.script.now; plans = n.plans.now; volfiles = n.volfiles.items } };
}

impl<'a> Names<'a> {
    /// The name of a brick.
    ///
    /// # Errors
    /// Out of memory.
    pub fn brick(&self, alloc: Global, brick: u8) -> Result<Seq<u8>, AllocError>
        ensures { IfOk result (λ name. name ≡ brick_name self.now brick) }
    {
        match self.script.bricks.as_slice().get(brick as usize) {
            Some(line) => line.name.copy(alloc),
            None => Ok(Seq::new(alloc)),
        }
    }

    /// The name of a session.
    ///
    /// # Errors
    /// Out of memory.
    pub fn session(&self, alloc: Global, session: u8) -> Result<Seq<u8>, AllocError>
        ensures { IfOk result (λ name. name ≡ session_name self.now session) }
    {
        match self.script.sessions.as_slice().get(session as usize) {
            Some(name) => name.copy(alloc),
            None => Ok(Seq::new(alloc)),
        }
    }

    fn plan(&self, volfile: u8) -> Option<&Plan>
        ensures { option_copied result ≡ slice_get self.now.plans volfile }
    {
        self.plans.get(volfile as usize)
    }

    // A set, in the plan of the graph that first used it.
    fn set_plan(&self, set: u8) -> Option<&SetPlan>
        ensures { option_copied result ≡ set_among self.now.plans self.now.volfiles set }
    {
        for volfile in &self.volfiles {
            let Some(plan) = self.plan(*volfile) else {
                return None;
            };
            if let Some(found) = set_in(plan, set) {
                return Some(found);
            }
        }
        None
    }

    /// The name of a set.
    ///
    /// # Errors
    /// Out of memory.
    pub fn set(&self, alloc: Global, set: u8) -> Result<Seq<u8>, AllocError>
        ensures { IfOk result (λ name. name ≡ set_name self.now set) }
    {
        match self.set_plan(set) {
            Some(plan) => plan.name.copy(alloc),
            None => Ok(Seq::new(alloc)),
        }
    }

    /// How many replicas a set has.
    pub fn replicas(&self, set: u8) -> usize
        ensures { result ≡ replicas_of self.now set }
    {
        match self.set_plan(set) {
            Some(plan) => plan.bricks.len(),
            None => 0,
        }
    }
}
