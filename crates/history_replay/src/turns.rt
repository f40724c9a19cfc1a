//! The turns of calls.
use std::alloc::{AllocError, Global};

/// The indices of a session's calls, which are passed one after another, and how many of them were passed.
#[derive(Drop)]
pub(crate) struct Turns {
    calls: Vec<usize>,
    passed: usize,
}

impl Turns {
    /// No call.
    pub(crate) fn new(alloc: Global) -> Turns {
        Turns {
            calls: Vec::new(alloc),
            passed: 0,
        }
    }

    /// How many calls there are.
    pub(crate) fn len(&self) -> usize {
        self.calls.len()
    }

    /// Puts a call behind the others.
    ///
    /// # Errors
    /// Out of memory.
    pub(crate) fn add(&mut self, call: usize) -> Result<(), AllocError> {
        self.calls.push(call)?;
        Ok(())
    }

    /// The call that is passed next, `None` where all were passed.
    pub(crate) fn current(&self) -> Option<usize> {
        self.calls.get(self.passed).copied()
    }

    /// Passes a call.
    pub(crate) fn pass(&mut self) {
        self.passed = self.passed.saturating_add(1);
    }

    /// Passes a call, if it is this one. It is false where it is another one.
    pub(crate) fn passes(&mut self, call: usize) -> bool {
        let is_current = self.current() == Some(call);
        if is_current {
            self.pass();
        }
        is_current
    }
}
