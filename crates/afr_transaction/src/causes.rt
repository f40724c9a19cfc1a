ghost use Rattle.std.specs.Prelude.{◌≡◌, ◌≤◌, length, IfOk, OnOk, slice_index};
ghost use Rattle.afr_transaction.specs.Txns.{over, io_of, pairs_below, put_pair, with_lost, lost_pairs, with_fault, fault_pairs, unit_of, failing, healing, ending};

use crate::need::Need;
use crate::txn::{Txn, is_heal};
use fop_types::{IoError, Out, Seq, SetReply, SkipCause};
use std::alloc::{AllocError, Global};

impl Txn {
    /// The job ends without a lock, since too few replicas are left.
    ///
    /// # Errors
    /// Out of memory.
    pub(crate) fn end_short(&mut self, alloc: Global) -> Result<Need, AllocError>
        ensures { IfOk result (λ need. (self.new, need) ≡ ending self.old) }
    {
        let reply = self.short_reply(alloc)?;
        Ok(self.finish(reply))
    }

    /// The answer of a job for which too few replicas are left.
    ///
    /// # Errors
    /// Out of memory.
    pub(crate) fn short_reply(&mut self, alloc: Global) -> Result<SetReply, AllocError>
        ensures { IfOk result (λ reply. (self.new, reply) ≡ failing self.old) }
    {
        if is_heal(&self.job) {
            return Ok(self.heal_reply(alloc, SkipCause::Majority));
        }
        let error = self.io_error(alloc)?;
        Ok(SetReply::Io(error))
    }

    /// The answer of a heal that ends: what it has copied, or why it leaves the cell as it is.
    pub(crate) fn heal_reply(&mut self, alloc: Global, cause: SkipCause) -> SetReply
        ensures { (self.new, result) ≡ healing self.old cause }
    {
        let records = std::mem::replace(&mut self.records, Seq::new(alloc));
        if records.is_empty() {
            return SetReply::Skipped(cause);
        }
        SetReply::Healed(records)
    }

    /// Why too few replicas are left: a fault, where one is out by it, else their loss.
    ///
    /// # Errors
    /// Out of memory.
    pub(crate) fn io_error(&self, alloc: Global) -> Result<IoError, AllocError>
        ensures { IfOk result (λ error. error ≡ io_of self.now) }
    {
        let lost = lost_bricks(alloc, self.bricks.as_slice(), &self.outs.at)?;
        let faults = failed_bricks(alloc, self.bricks.as_slice(), &self.outs.at)?;
        if faults.is_empty() {
            return Ok(IoError::Quorum {
                set: self.set,
                lost,
            });
        }
        Ok(IoError::Fault {
            set: self.set,
            faults,
            lost,
        })
    }
}

// ---- by rising brick

// How many of the first pairs are of bricks below this one.
fn pairs_below<N>(pairs: &[(u8, N)], brick: u8) -> usize
    ensures below { result ≡ pairs_below brick pairs.now }
    ensures few { result ≤ length pairs.now }
{
    let mut below = 0;
    for pair in pairs {
        if pair.0 >= brick {
            return below;
        }
        below += 1;
    }
    below
}

// A pair more, behind those of lower bricks.
fn put_pair<N: Copy>(list: &mut Vec<(u8, N)>, pair: (u8, N)) -> Result<(), AllocError>
    ensures { OnOk result (list.new.items ≡ put_pair pair list.old.items) }
{
    let place = pairs_below(list.as_slice(), pair.0);
    list.insert(place, pair)?;
    Ok(())
}

// ---- the bricks that are out

fn lost_bricks(
    alloc: Global,
    bricks: &[u8],
    outs: &[Option<Out>],
) -> Result<Seq<(u8, u32)>, AllocError>
    ensures { IfOk result (λ list. list ≡ lost_pairs bricks.now outs.now) }
{
    let mut list = Vec::new(alloc);
    for k in (0..outs.len()).rev() {
        put_lost(&mut list, bricks, &outs[k])?;
    }
    Ok(Seq::from_vec(list))
}

fn put_lost(list: &mut Vec<(u8, u32)>, bricks: &[u8], out: &Option<Out>) -> Result<(), AllocError>
    ensures { OnOk result (list.new.items ≡ with_lost bricks.now out.now list.old.items) }
{
    let Some(out) = out else {
        return Ok(());
    };
    if out.fault {
        return Ok(());
    }
    put_pair(list, (brick_of(bricks, out.replica), unit_of(out.mark)))?;
    Ok(())
}

fn failed_bricks(
    alloc: Global,
    bricks: &[u8],
    outs: &[Option<Out>],
) -> Result<Seq<(u8, u64)>, AllocError>
    ensures { IfOk result (λ list. list ≡ fault_pairs bricks.now outs.now) }
{
    let mut list = Vec::new(alloc);
    for k in (0..outs.len()).rev() {
        put_failed(&mut list, bricks, &outs[k])?;
    }
    Ok(Seq::from_vec(list))
}

fn put_failed(list: &mut Vec<(u8, u64)>, bricks: &[u8], out: &Option<Out>) -> Result<(), AllocError>
    ensures { OnOk result (list.new.items ≡ with_fault bricks.now out.now list.old.items) }
{
    let Some(out) = out else {
        return Ok(());
    };
    if !out.fault {
        return Ok(());
    }
    put_pair(list, (brick_of(bricks, out.replica), out.mark))?;
    Ok(())
}

fn brick_of(bricks: &[u8], k: u8) -> u8
    ensures { result ≡ slice_index bricks.now k }
{
    match bricks.get(k as usize) {
        Some(brick) => *brick,
        None => 0,
    }
}

fn unit_of(mark: u64) -> u32
    ensures { result ≡ unit_of mark }
{
    if mark < 4294967296 {
        mark as u32
    } else {
        u32::MAX
    }
}
