//! The hub's ends of the links.

use brick_link::HubEnd;
use bytes::Bytes;
use hub_calls::SentLine;
use std::alloc::{AllocError, Global};
use std::collections::VecDeque;

// How many outputs of a brick one turn moves into the inbox, at most.
const MOST_MOVED: u32 = 64;

/// More bricks than a script has.
pub(crate) const MOST_BRICKS: usize = 64;

/// The hub's ends of the links, the outputs that were received and have not arrived, and how many of the sent inputs were
/// queued in the ends.
#[derive(Drop)]
pub(crate) struct Links {
    ends: Vec<HubEnd>,
    pub(crate) inbox: VecDeque<(u8, Bytes)>,
    queued: usize,
}

impl Links {
    /// The ends of links over which nothing was sent. It takes no memory.
    pub(crate) fn new(alloc: Global, ends: Vec<HubEnd>) -> Links {
        Links {
            ends,
            inbox: VecDeque::new(alloc),
            queued: 0,
        }
    }

    // Puts what was sent to a brick into the end of its link.
    fn queue(&mut self, alloc: Global, line: &SentLine) -> Result<(), AllocError> {
        match self.ends.get_mut(line.brick as usize) {
            Some(end) => {
                let bytes = line.bytes.clone()?;
                end.queue(alloc, bytes)
            }
            None => Ok(()),
        }
    }

    /// Puts what the hub has sent into the ends, and moves what the rings have room for.
    ///
    /// # Errors
    /// Out of memory.
    pub(crate) fn send(&mut self, alloc: Global, sent: &[SentLine]) -> Result<(), AllocError> {
        for at in self.queued..sent.len() {
            self.queue(alloc, &sent[at])?;
        }
        self.queued = sent.len();
        for end in self.ends.iter_mut() {
            end.try_send();
        }
        Ok(())
    }

    // Moves outputs of a brick from its ring into the inbox.
    fn receive_from(&mut self, brick: u8) -> Result<(), AllocError> {
        let Some(end) = self.ends.get_mut(brick as usize) else {
            return Ok(());
        };
        for _ in 0..MOST_MOVED {
            match end.try_recv() {
                Some(output) => self.inbox.push_back((brick, output))?,
                None => return Ok(()),
            }
        }
        Ok(())
    }

    /// Moves outputs from the rings into the inbox.
    ///
    /// # Errors
    /// Out of memory.
    pub(crate) fn receive(&mut self) -> Result<(), AllocError> {
        let many = self.ends.len().min(MOST_BRICKS) as u8;
        for brick in 0..many {
            self.receive_from(brick)?;
        }
        Ok(())
    }
}
