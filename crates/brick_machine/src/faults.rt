ghost use Rattle.std.specs.Prelude.{◌≡◌, ◌<◌, OnOk, OnErr, IfOk};
ghost use Rattle.brick_machine.specs.State.{no_faults, place_of as place_of_proc, is_to_fail, after_request, with_fault, request_after};

use fop_types::Proc;
use std::alloc::{AllocError, Global};
use std::collections::BTreeSet;
use std::marker::Model;

/// A request that is to fail: the place of its procedure, from 0, and its number among the requests of the procedure
/// that the brick serves, from 1.
#[derive(Clone, Copy, PartialEq, Eq, PartialOrd, Ord)]
pub struct Failing {
    pub place: u8,
    pub number: u64,
}

/// How many requests of each procedure were served, and which are to fail.
#[derive(Drop)]
pub struct Faults {
    counts: [u64; 12],
    set: BTreeSet<Failing>,
}

impl Model for Faults {
    ghost use Rattle.brick_machine.specs.Faulting.{Faulting};

    ghost Value = { Faulting };

    ghost view = { λ f. record { served = f.counts; failing = f.set.keys } };
}

fn place_of(proc: Proc) -> usize
    ensures place { result ≡ place_of_proc proc }
    ensures bound { result < 12 }
{
    match proc {
        Proc::Lock => 0,
        Proc::Unlock => 1,
        Proc::Mark => 2,
        Proc::Op => 3,
        Proc::Post => 4,
        Proc::Fetch => 5,
        Proc::Replace => 6,
        Proc::Clear => 7,
        Proc::Settle => 8,
        Proc::Index => 9,
        Proc::Open => 10,
        Proc::Release => 11,
    }
}

impl Faults {
    pub(crate) fn new(alloc: Global) -> Faults
        ensures { result ≡ no_faults }
    {
        Faults {
            counts: [0; 12],
            set: BTreeSet::new(alloc),
        }
    }

    fn request(&self, proc: Proc, more: u64) -> Failing
        ensures { result ≡ request_after self.now proc more }
    {
        let place = place_of(proc);
        Failing {
            place: place as u8,
            number: self.counts[place].saturating_add(more),
        }
    }

    /// Counts a request of a procedure that is served, and says whether it is to fail.
    pub(crate) fn take(&mut self, proc: Proc) -> bool
        ensures fails { result ≡ is_to_fail self.old proc }
        ensures counted { self.new ≡ after_request self.old proc }
    {
        let failing = self.request(proc, 1);
        self.counts[place_of(proc)] = failing.number;
        self.set.remove(&failing)
    }

    /// Names the `number`-th request of a procedure that is served from here on.
    ///
    /// # Errors
    /// Out of memory, with nothing changed.
    pub(crate) fn fail_at(&mut self, proc: Proc, number: u32) -> Result<(), AllocError>
        ensures ok { OnOk result (self.new ≡ with_fault self.old proc number) }
        ensures err { OnErr result (self.new ≡ self.old) }
    {
        let failing = self.request(proc, u64::from(number));
        self.set.insert(failing)?;
        Ok(())
    }
}
