//! The choice among the events that are enabled.
ghost use Rattle.std.specs.Prelude.{◌≡◌, ◌≤◌, slice_get, length};
ghost use Rattle.world_bricks.specs.Choices.{choices, choice_by, act_of};

use crate::events::Event;
use crate::schedule::chosen;
use hub_calls::SmallSet;
use script_lang::Action;

/// What is enabled: the sessions that may submit, the bricks with an output that has not arrived, the bricks with an
/// input, how many tasks are ready, and the next control without a condition.
#[derive(Clone, Copy)]
pub struct Enabled {
    pub submits: SmallSet,
    pub arriving: SmallSet,
    pub serving: SmallSet,
    pub tasks: u32,
    pub plain: Option<Action>,
}

/// What is chosen: an event, or the ready task of this place.
#[derive(Clone, Copy)]
pub enum Choice {
    Event(Event),
    Task(u32),
}

fn count_of(plain: Option<Action>) -> u64
    ensures value { result ≡ length (act_of plain) }
    ensures few { result ≤ 1 }
{
    match plain {
        Some(_) => 1,
        None => 0,
    }
}

impl Enabled {
    fn count(&self) -> u64
        ensures { result ≡ length (choices self.now) }
    {
        let sets = self.submits.len() + self.arriving.len() + self.serving.len();
        sets as u64 + self.tasks as u64 + count_of(self.plain)
    }

    // The item of this place, from 0: submissions by session, arrivals and serves by brick, tasks, and then the control.
    fn nth(&self, at: u64) -> Option<Choice>
        ensures { result ≡ slice_get (choices self.now) at }
    {
        let mut left = at;
        let submits = self.submits.len() as u64;
        if left < submits {
            return Some(Choice::Event(Event::Submit(self.submits.nth(left as u32)?)));
        }
        left -= submits;
        let arriving = self.arriving.len() as u64;
        if left < arriving {
            return Some(Choice::Event(Event::Arrive(self.arriving.nth(left as u32)?)));
        }
        left -= arriving;
        let serving = self.serving.len() as u64;
        if left < serving {
            return Some(Choice::Event(Event::Serve(self.serving.nth(left as u32)?)));
        }
        left -= serving;
        let tasks = self.tasks as u64;
        if left < tasks {
            return Some(Choice::Task(left as u32));
        }
        if left > tasks {
            return None;
        }
        Some(Choice::Event(Event::Act(self.plain?)))
    }

    /// What a value of the schedule chooses; `None` exactly where nothing is enabled.
    pub fn chosen(&self, value: u64) -> Option<Choice>
        ensures { result ≡ choice_by self.now value }
    {
        let count = self.count();
        if count == 0 {
            return None;
        }
        self.nth(chosen(value, count))
    }
}
