ghost use Rattle.std.specs.Prelude.{◌≡◌, [], ◌∷◌, ◌++◌, drop, OnOk, OnErr, IfErr};
ghost use Rattle.io_threads.specs.Lanes.{no_tasks, pushed, in_turn, first_of, without_first};

use crate::priority::Priority;
use std::alloc::{AllocError, Global};
use std::collections::VecDeque;
use std::marker::Model;

/// Tasks that wait, in four queues. Contracts see four lists, the oldest task first in each.
#[derive(Drop)]
pub struct Queues<T> {
    high_tasks: VecDeque<T>,
    normal_tasks: VecDeque<T>,
    low_tasks: VecDeque<T>,
    least_tasks: VecDeque<T>,
}

impl<T> Model for Queues<T> {
    ghost use Rattle.io_threads.specs.Lanes.{Lanes, lanes};

    ghost Value = { Lanes T };

    ghost view = { λ q. lanes q.high_tasks.items q.normal_tasks.items q.low_tasks.items q.least_tasks.items };
}

impl<T> Queues<T> {
    /// Four empty queues, which allocate nothing.
    pub fn new(alloc: Global) -> Queues<T>
        ensures { result ≡ no_tasks }
    {
        Queues {
            high_tasks: VecDeque::new(alloc),
            normal_tasks: VecDeque::new(alloc),
            low_tasks: VecDeque::new(alloc),
            least_tasks: VecDeque::new(alloc),
        }
    }

    /// Puts a task at the end of the queue of its priority. The queues keep the allocator that they were
    /// made with and grow in it.
    ///
    /// # Errors
    /// Out of memory: the task comes back, and the queues are unchanged.
    pub fn push(
        &mut self,
        _alloc: Global,
        priority: Priority,
        task: T,
    ) -> Result<(), (T, AllocError)>
        ensures ok { OnOk result (self.new ≡ pushed priority task self.old) }
        ensures err { OnErr result (self.new ≡ self.old) }
        ensures task_returned { IfErr result (λ e. e.0 ≡ task) }
    {
        match priority {
            Priority::High => put_last(&mut self.high_tasks, task),
            Priority::Normal => put_last(&mut self.normal_tasks, task),
            Priority::Low => put_last(&mut self.low_tasks, task),
            Priority::Least => put_last(&mut self.least_tasks, task),
        }
    }

    /// Takes the oldest task of the highest priority that has one. `None` comes exactly where all four
    /// queues are empty.
    pub fn pop(&mut self) -> Option<T>
        ensures oldest { result ≡ first_of (in_turn self.old) }
        ensures rest { self.new ≡ without_first self.old }
        ensures turn { in_turn self.new ≡ drop 1 (in_turn self.old) }
    {
        if let Some(task) = self.high_tasks.pop_front() {
            return Some(task);
        }
        if let Some(task) = self.normal_tasks.pop_front() {
            return Some(task);
        }
        if let Some(task) = self.low_tasks.pop_front() {
            return Some(task);
        }
        self.least_tasks.pop_front()
    }
}

// Gives the task back where it runs out of memory.
fn put_last<T>(queue: &mut VecDeque<T>, task: T) -> Result<(), (T, AllocError)>
    ensures ok { OnOk result (queue.new.items ≡ queue.old.items ++ task ∷ []) }
    ensures err { OnErr result (queue.new.items ≡ queue.old.items) }
    ensures task_returned { IfErr result (λ e. e.0 ≡ task) }
{
    match queue.push_back(task) {
        Ok(()) => Ok(()),
        Err(refused) => Err((refused.value, AllocError)),
    }
}
