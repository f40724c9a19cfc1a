//! Events and lines that were sent, by their places.
ghost use Rattle.std.specs.Prelude.{◌≡◌, option_copied, slice_get};

use crate::logs::{HubEvent, Log, SentLine};

/// The event at this place, from 0; `None` where the log has no more events than that.
pub fn event_at(log: &Log, k: usize) -> Option<&HubEvent>
    ensures { option_copied result ≡ slice_get log.now.events k }
{
    log.events.as_slice().get(k)
}

/// The line that was sent at this place, from 0; `None` where no more lines than that were sent.
pub fn line_at(log: &Log, at: usize) -> Option<&SentLine>
    ensures { option_copied result ≡ slice_get log.now.sent at }
{
    log.sent.as_slice().get(at)
}
