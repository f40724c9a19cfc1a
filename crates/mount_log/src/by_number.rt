//! Events by their numbers.
ghost use Rattle.std.specs.Prelude.{◌≡◌, option_copied};
ghost use Rattle.mount_log.specs.Switches.{event_of};

use crate::logs::{HubEvent, Log};

/// The event of this number, from 1; `None` for 0, and where the log has fewer events.
pub fn event_at(log: &Log, number: u64) -> Option<&HubEvent>
    ensures { option_copied result ≡ event_of log.now number }
{
    if number == 0 {
        return None;
    }
    log.events.as_slice().get((number - 1) as usize)
}
