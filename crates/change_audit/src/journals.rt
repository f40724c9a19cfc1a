//! Inputs in the journals of bricks.
ghost use Rattle.std.specs.Prelude.{◌≡◌, ◌≢◌, ℕ, List, option_copied, slice_get, IfOk, IfSome, IfNone};
ghost use Rattle.fop_types.specs.declared.messages.Input.{Input as Made};
ghost use Rattle.wire_xdr.specs.WireText.{input_text, IsInput};
ghost use Rattle.change_audit.specs.Journals.{IsInputOf};

use brick_machine::Brick;
use bytes::Bytes;
use fop_types::Input;
use std::alloc::{AllocError, Global};
use wire_messages::{Message, input_of};

/// The bytes at a place.
pub fn bytes_at(list: &[Bytes], at: usize) -> Option<&Bytes>
    ensures { option_copied result ≡ slice_get list.now at }
{
    list.get(at)
}

/// The brick of a number.
pub fn brick_at(bricks: &[Brick], brick: u8) -> Option<&Brick>
    ensures { option_copied result ≡ slice_get bricks.now brick }
{
    bricks.get(brick as usize)
}

/// The input of a brick's journal that is counted so, from 1.
#[tactic(auto, using(crate::proofs::Reading::none_counted, crate::proofs::Reading::no_journal, crate::proofs::Reading::no_input))]
pub fn input_at(bricks: &[Brick], brick: u8, taken: u64) -> Option<&[u8]>
    ensures found { IfSome result (λ bytes. IsInputOf bricks.now brick taken bytes.now) }
    ensures none { IfNone result ((bytes : List ℕ) → IsInputOf bricks.now brick taken bytes → ⊥) }
{
    if taken == 0 {
        return None;
    }
    let at = brick_at(bricks, brick)?;
    let bytes = bytes_at(at.journal(), (taken - 1) as usize)?;
    Some(bytes.as_slice())
}

/// The input that the bytes are, if they are one.
///
/// # Errors
/// Out of memory.
pub fn whole_input(alloc: Global, bytes: &[u8]) -> Result<Option<Input>, AllocError>
    ensures found { IfOk result (λ found. IfSome found (λ x. bytes.now ≡ input_text x)) }
    ensures legal { IfOk result (λ found. IfSome found (λ x. IsInput x)) }
    ensures none { IfOk result (λ found. IfNone found ((x : Made) → IsInput x → bytes.now ≢ input_text x)) }
{
    match input_of(alloc, bytes)? {
        Message::Whole(input) => Ok(Some(input)),
        Message::Wrong { place: _ } => Ok(None),
    }
}
