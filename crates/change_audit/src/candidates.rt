//! The changes that bricks are said to bear, by call. Nothing is said of them.

use crate::answers::Bearer;
use fop_types::Seq;
use std::alloc::{AllocError, Global};
use std::collections::BTreeMap;

/// A change of a call, and the bricks that are said to bear it, by rising numbers.
#[derive(Drop)]
pub struct Candidate {
    pub call: u32,
    pub change: u64,
    pub bearers: Seq<Bearer>,
}

/// The changes by call, and where those of each call begin.
#[derive(Drop)]
pub struct Candidates {
    changes: Vec<Candidate>,
    begins: BTreeMap<u32, usize>,
}

/// A brick that bears a change of a call, in the order of calls, changes and bricks.
#[derive(Clone, Copy, PartialEq, Eq, PartialOrd, Ord)]
pub struct BearerOf {
    pub call: u32,
    pub change: u64,
    pub brick: u8,
}

impl Candidates {
    // Whether the last change is that of a bearer.
    fn ends_with(&self, key: BearerOf) -> bool {
        match self.changes.last() {
            Some(last) => last.call == key.call && last.change == key.change,
            None => false,
        }
    }

    // Adds a change, which has no bearers yet.
    fn open(&mut self, alloc: Global, key: BearerOf) -> Result<(), AllocError> {
        let at = self.changes.len();
        if !self.begins.contains_key(&key.call) {
            self.begins.insert(key.call, at)?;
        }
        self.changes.push(Candidate {
            call: key.call,
            change: key.change,
            bearers: Seq::new(alloc),
        })?;
        Ok(())
    }

    fn add(&mut self, alloc: Global, key: BearerOf, bearer: Bearer) -> Result<(), AllocError> {
        if !self.ends_with(key) {
            self.open(alloc, key)?;
        }
        if let Some(last) = self.changes.last_mut() {
            last.bearers.push(bearer)?;
        }
        Ok(())
    }

    fn add_all(
        &mut self,
        alloc: Global,
        bearers: &BTreeMap<BearerOf, Bearer>,
    ) -> Result<(), AllocError> {
        for (key, bearer) in bearers.iter() {
            self.add(alloc, *key, *bearer)?;
        }
        Ok(())
    }

    /// The number of changes.
    pub(crate) fn count(&self) -> usize {
        self.changes.len()
    }

    /// The place of the first change of a call, and the number of changes where it has none.
    pub(crate) fn begin(&self, call: u32) -> usize {
        match self.begins.get(&call) {
            Some(begin) => *begin,
            None => self.changes.len(),
        }
    }

    /// The change at a place, if it is one of the call.
    pub(crate) fn change(&self, at: usize, call: u32) -> Option<&Candidate> {
        let change = self.changes.get(at)?;
        if change.call != call {
            return None;
        }
        Some(change)
    }
}

/// The changes that these bricks bear.
///
/// # Errors
/// Out of memory.
pub(crate) fn candidates_of(
    alloc: Global,
    bearers: &BTreeMap<BearerOf, Bearer>,
) -> Result<Candidates, AllocError> {
    let mut candidates = Candidates {
        changes: Vec::new(alloc),
        begins: BTreeMap::new(alloc),
    };
    let done = candidates.add_all(alloc, bearers);
    done.and(Ok(candidates))
}
