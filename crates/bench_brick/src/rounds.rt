//! What a brick serves, and copies of 65,536 bytes beside it. All are kept, as a brick keeps its outputs.
use crate::messages::{MOST, add, add_large_writes};
use brick_machine::Brick;
use bytes::Bytes;
use std::alloc::{AllocError, Global};

/// Serves some messages.
pub fn serve(alloc: Global, brick: &mut Brick, messages: Vec<Bytes>) -> Result<(), AllocError> {
    for message in messages {
        brick.serve(alloc, message)?;
    }
    Ok(())
}

/// A new brick that has served some messages.
pub fn served(alloc: Global, messages: Vec<Bytes>) -> Result<Brick, AllocError> {
    let mut brick = Brick::new(alloc)?;
    match serve(alloc, &mut brick, messages) {
        Ok(()) => Ok(brick),
        Err(error) => {
            drop(brick);
            Err(error)
        }
    }
}

/// Whether the last output of a brick answers a request as done.
pub fn is_done(brick: &Brick) -> bool {
    match brick.outputs().last() {
        Some(output) => match output.as_slice().get(23) {
            Some(status) => *status == 0,
            None => false,
        },
        None => false,
    }
}

/// A brick serves so many writes of 65,536 bytes, to a hundred files in turn.
pub fn serve_writes(alloc: Global, writes: u32) -> Result<(), AllocError> {
    let mut messages = Vec::new(alloc);
    add_large_writes(alloc, &mut messages, writes)?;
    drop(served(alloc, messages)?);
    Ok(())
}

/// Keeps so many copies of a block.
pub fn keep_copies(alloc: Global, copies: &mut Vec<Vec<u8>>, count: u32) -> Result<(), AllocError> {
    let bytes = vec![in alloc; 7u8; MOST as usize]?;
    let done = keep_each(alloc, copies, bytes.as_slice(), count);
    drop(bytes);
    done
}

fn keep_each(
    alloc: Global,
    copies: &mut Vec<Vec<u8>>,
    bytes: &[u8],
    count: u32,
) -> Result<(), AllocError> {
    for _ in 0..count {
        add(copies, Vec::from_slice(alloc, bytes))?;
    }
    Ok(())
}
