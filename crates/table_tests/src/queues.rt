use io_threads::{Priority, Queues};
use std::test::*;

const PUSHED: [(Priority, u32); 5] = [
    (Priority::Least, 1),
    (Priority::Normal, 2),
    (Priority::Low, 3),
    (Priority::Normal, 4),
    (Priority::High, 5),
];

// The tasks come by priority, and those of one priority by age.
#[test]
fn basic(rt: HostRuntime) -> Result<(), Fail> {
    let mut queues = Queues::new(rt.alloc());
    for (priority, task) in &PUSHED {
        assert!(rt; queues.push(rt.alloc(), *priority, *task).is_ok());
    }
    for task in [5, 2, 4, 3, 1] {
        assert!(rt; queues.pop() == Some(task));
    }
    assert!(rt; queues.pop().is_none());
    Ok(())
}
