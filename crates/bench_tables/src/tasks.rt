use crate::timing::ROUNDS;
use io_threads::{Priority, Queues};
use std::alloc::{AllocError, Global};

// All priorities.
const PRIORITIES: [Priority; 4] = [
    Priority::High,
    Priority::Normal,
    Priority::Low,
    Priority::Least,
];

/// Adds so many tasks to each queue.
pub fn fill(alloc: Global, queues: &mut Queues<u32>, entries: u32) -> Result<(), AllocError> {
    for task in 0..entries {
        for priority in &PRIORITIES {
            push(alloc, queues, *priority, task)?;
        }
    }
    Ok(())
}

/// A task is pushed, and the next one is popped.
pub fn push_and_pop(alloc: Global, queues: &mut Queues<u32>) -> Result<(), AllocError> {
    for task in 0..ROUNDS {
        push(alloc, queues, Priority::High, task)?;
        queues.pop();
    }
    Ok(())
}

fn push(
    alloc: Global,
    queues: &mut Queues<u32>,
    priority: Priority,
    task: u32,
) -> Result<(), AllocError> {
    match queues.push(alloc, priority, task) {
        Ok(()) => Ok(()),
        Err((_, wanting)) => Err(wanting),
    }
}
