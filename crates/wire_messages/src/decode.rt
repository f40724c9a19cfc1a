ghost use Rattle.std.specs.Prelude.{◌≡◌, IfOk};
ghost use Rattle.wire_xdr.specs.WireText.{input_text, IsInputOf, output_text, IsOutputOf};
ghost use Rattle.wire_messages.specs.Messages.{input_in, output_in, message_of, IsSaid, MessagesReadBack};

use crate::messages::Message;
use fop_types::{Input, Output};
use std::alloc::{AllocError, Global};
use wire_xdr::{Decoded, decode_rep, decode_req};

/// What is read from the beginning of this many bytes, as the whole of them.
fn whole<T: Drop>(length: usize, decoded: Decoded<T>) -> Message<T>
    ensures { result ≡ message_of length decoded }
{
    match decoded {
        Decoded::Front { value, used } => {
            if used as usize == length {
                Message::Whole(value)
            } else {
                Message::Wrong { place: used }
            }
        }
        Decoded::Bad(error) => Message::Wrong { place: error.place },
    }
}

/// The input that the bytes are, or the place at which they stop being one.
///
/// # Errors
/// Out of memory.
#[tactic(auto, using(crate::proofs::ReadBack::message_says), unfolding(crate::specs::Messages::input_in))]
pub fn input_of(alloc: Global, bytes: &[u8]) -> Result<Message<Input>, AllocError>
    ensures said { IfOk result (IsSaid IsInputOf input_text bytes.now) }
    ensures read { IfOk result (λ message. message ≡ input_in bytes.now) }
{
    let input = decode_req(alloc, bytes)?;
    Ok(whole(bytes.len(), input))
}

/// The output that the bytes are, or the place at which they stop being one.
///
/// # Errors
/// Out of memory.
#[tactic(auto, using(crate::proofs::ReadBack::message_says), unfolding(crate::specs::Messages::output_in))]
pub fn output_of(alloc: Global, bytes: &[u8]) -> Result<Message<Output>, AllocError>
    ensures said { IfOk result (IsSaid IsOutputOf output_text bytes.now) }
    ensures read { IfOk result (λ message. message ≡ output_in bytes.now) }
{
    let output = decode_rep(alloc, bytes)?;
    Ok(whole(bytes.len(), output))
}

/// The law of whole messages: each input and output that has an encoding is read back from it, and bytes
/// that are read as a value are its encoding.
#[tactic(auto, using(crate::proofs::ReadBack::messages_are_read_back))]
pub fn messages_read_back()
    ensures { MessagesReadBack }
{}
