//! What arrived from bricks.
ghost use Rattle.std.specs.Prelude.{◌≡◌, ◌≢◌, ℕ, List, Some, slice_get, IfOk, IfSome, IfNone};
ghost use Rattle.fop_types.specs.declared.messages.Output.{Output as Made};
ghost use Rattle.wire_xdr.specs.WireText.{output_text, IsOutput};
ghost use Rattle.mount_log.specs.declared.logs.HubEvent.TheVariants.{Arrive};

use fop_types::Output;
use mount_log::by_place::event_at;
use mount_log::{HubEvent, Log};
use std::alloc::{AllocError, Global};
use wire_messages::{Message, output_of};

fn bytes_from(event: &HubEvent, brick: u8) -> Option<&[u8]>
    ensures found { IfSome result (λ bytes. event.now ≡ Arrive brick bytes.now) }
    ensures none { IfNone result ((bytes : List ℕ) → event.now ≢ Arrive brick bytes) }
{
    match event {
        HubEvent::Arrive { brick: from, bytes } => {
            if *from == brick {
                Some(bytes.as_slice())
            } else {
                None
            }
        }
        _ => None,
    }
}

/// What arrived from a brick in the event at a place.
pub fn arrived(log: &Log, event: usize, brick: u8) -> Option<&[u8]>
    ensures found { IfSome result (λ bytes. slice_get log.now.events event ≡ Some (Arrive brick bytes.now)) }
    ensures none { IfNone result ((bytes : List ℕ) → slice_get log.now.events event ≢ Some (Arrive brick bytes)) }
{
    match event_at(log, event) {
        Some(event) => bytes_from(event, brick),
        None => None,
    }
}

/// The hyper at a place among bytes.
pub(crate) fn hyper_at(bytes: &[u8], at: usize) -> Option<u64> {
    let mut number = 0u64;
    for byte in bytes.get(at..)?.get(..8)? {
        number = (number << 8) | *byte as u64;
    }
    Some(number)
}

/// The output that the bytes are the encoding of, if they are that of one.
///
/// # Errors
/// Out of memory.
pub fn written_output(alloc: Global, bytes: &[u8]) -> Result<Option<Output>, AllocError>
    ensures found { IfOk result (λ found. IfSome found (λ x. bytes.now ≡ output_text x)) }
    ensures legal { IfOk result (λ found. IfSome found (λ x. IsOutput x)) }
    ensures none { IfOk result (λ found. IfNone found ((x : Made) → IsOutput x → bytes.now ≢ output_text x)) }
{
    match output_of(alloc, bytes)? {
        Message::Whole(output) => Ok(Some(output)),
        Message::Wrong { place: _ } => Ok(None),
    }
}
