ghost use Rattle.std.specs.Prelude.{◌≡◌, ◌<◌, IfOk};
ghost use Rattle.afr_phases.specs.Outs.{no_outs, is_out, left, out_count, is_short, used, outs_listed};

use crate::flags::Flags;
use fop_types::{Out, Seq};
use std::alloc::{AllocError, Global};

/// The replicas that a job does not use any more, each with the first cause: found without an open connection, lost
/// since, or an answer by a fault.
#[derive(Clone, Copy)]
pub struct Outs {
    pub at: [Option<Out>; 5],
}

impl Outs {
    /// No replica is out.
    pub fn new() -> Outs
        ensures { result ≡ no_outs }
    {
        Outs { at: [None; 5] }
    }

    /// Whether a replica is out.
    pub fn is_out(&self, k: u8) -> bool
        requires { k < 5 }
        ensures { result ≡ is_out self.now k }
    {
        self.at[k as usize].is_some()
    }

    /// A replica is out from here on. One that was out before stays so by its first cause.
    pub fn leave(&mut self, k: u8, fault: bool, mark: u64)
        requires { k < 5 }
        ensures { self.new ≡ left self.old k fault mark }
    {
        if self.is_out(k) {
            return;
        }
        self.at[k as usize] = Some(Out {
            replica: k,
            fault,
            mark,
        });
    }

    /// How many replicas are out.
    pub fn count(&self) -> usize
        ensures { result ≡ out_count self.now }
    {
        self.at.iter().filter(|out| out.is_some()).count()
    }

    /// Whether so many of `n` replicas are out that the others are no quorum of `q`.
    pub fn is_short(&self, n: u8, q: u8) -> bool
        ensures { result ≡ is_short self.now n q }
    {
        self.count() + q as usize > n as usize
    }

    /// The replicas of `n` that are not out: after a lock phase these are asked, also one whose connection has ended.
    pub fn used(&self, n: u8) -> Flags
        ensures { result ≡ used self.now n }
    {
        [
            n > 0 && !self.is_out(0),
            n > 1 && !self.is_out(1),
            n > 2 && !self.is_out(2),
            n > 3 && !self.is_out(3),
            n > 4 && !self.is_out(4),
        ]
    }

    /// The replicas that are out, rising, with their causes.
    ///
    /// # Errors
    /// Out of memory.
    pub fn list(&self, alloc: Global) -> Result<Seq<Out>, AllocError>
        ensures { IfOk result (λ list. list ≡ outs_listed self.now.at) }
    {
        let mut list = Vec::new(alloc);
        for out in &self.at {
            match out {
                Some(out) => list.push(*out)?,
                None => {}
            }
        }
        Ok(Seq::from_vec(list))
    }
}
