ghost use Rattle.std.specs.Prelude.{◌≡◌};
ghost use Rattle.world_bricks.specs.Choices.{event_of as event_of_due, events_of};

use fop_types::Proc;
use hub_calls::Due;
use script_lang::Action;

/// An event of the world: a session submits its next call, the next output of a brick arrives, a brick serves its next
/// input, a task of a graph is run, an action is carried out, or it is armed for a request.
#[derive(Clone, Copy)]
pub enum Event {
    Submit(u8),
    Arrive(u8),
    Serve(u8),
    Run(u32, u32),
    Act(Action),
    Arm(u8, Proc, u32, Action),
}

/// The event of what is due in the hub.
pub(crate) fn event_of(due: Due) -> Event
    ensures { result ≡ event_of_due due }
{
    match due {
        Due::Submit(session) => Event::Submit(session),
        Due::Run(graph, task) => Event::Run(graph, task),
        Due::Act(action) => Event::Act(action),
        Due::Arm(brick, proc, count, action) => Event::Arm(brick, proc, count, action),
    }
}

/// The event of what may be due.
pub(crate) fn due_event(due: Option<Due>) -> Option<Event>
    ensures { result ≡ events_of due }
{
    match due {
        Some(due) => Some(event_of(due)),
        None => None,
    }
}
