ghost use Rattle.std.specs.Prelude.{◌≡◌, length, IfOk};
ghost use Rattle.wire_xdr.specs.code.Decoding.{place_before, decoded_by};
ghost use Rattle.wire_xdr.specs.code.MessageParsers.{input_at, output_at};
ghost use Rattle.wire_xdr.specs.WireText.{input_text, IsInputOf, output_text, IsOutputOf, IsDecoded};

mod attrs;
mod cells;
mod classes;
mod contents;
mod faults;
mod items;
mod ops;
mod replies;
mod requests;
mod rows;
mod strings;
mod units;

use crate::decode::faults::Fault;
use crate::decode::replies::output;
use crate::decode::requests::input;
use crate::decoded::{DecodeError, Decoded};
use crate::limits::MAX_UNIT;
use fop_types::{Input, Output};
use std::alloc::{AllocError, Global};

/// The number of bytes before those that are left, at most 4,294,967,295. Each encoding is shorter.
fn before(whole: usize, left: usize) -> u32
    ensures { result ≡ place_before whole left }
{
    let passed = whole.saturating_sub(left);
    if passed < MAX_UNIT as usize {
        passed as u32
    } else {
        MAX_UNIT
    }
}

/// The input whose encoding begins the bytes, with the length of that encoding; or the place at which the
/// bytes stop being an input, where no encoding begins them.
///
/// # Errors
/// Out of memory.
pub fn decode_req(alloc: Global, bytes: &[u8]) -> Result<Decoded<Input>, AllocError>
    ensures said { IfOk result (IsDecoded IsInputOf input_text bytes.now) }
    ensures read { IfOk result (λ d. d ≡ decoded_by (length bytes.now) (input_at bytes.now)) }
{
    match input(alloc, bytes) {
        Ok((value, rest)) => {
            let used = before(bytes.len(), rest.len());
            Ok(Decoded::Front { value, used })
        }
        Err(Fault::Wrong { left }) => {
            let place = before(bytes.len(), left);
            Ok(Decoded::Bad(DecodeError { place }))
        }
        Err(Fault::Short) => {
            let place = before(bytes.len(), 0);
            Ok(Decoded::Bad(DecodeError { place }))
        }
        Err(Fault::Memory(error)) => Err(error),
    }
}

/// The output whose encoding begins the bytes, with the length of that encoding; or the place at which
/// the bytes stop being an output, where no encoding begins them.
///
/// # Errors
/// Out of memory.
pub fn decode_rep(alloc: Global, bytes: &[u8]) -> Result<Decoded<Output>, AllocError>
    ensures said { IfOk result (IsDecoded IsOutputOf output_text bytes.now) }
    ensures read { IfOk result (λ d. d ≡ decoded_by (length bytes.now) (output_at bytes.now)) }
{
    match output(alloc, bytes) {
        Ok((value, rest)) => {
            let used = before(bytes.len(), rest.len());
            Ok(Decoded::Front { value, used })
        }
        Err(Fault::Wrong { left }) => {
            let place = before(bytes.len(), left);
            Ok(Decoded::Bad(DecodeError { place }))
        }
        Err(Fault::Short) => {
            let place = before(bytes.len(), 0);
            Ok(Decoded::Bad(DecodeError { place }))
        }
        Err(Fault::Memory(error)) => Err(error),
    }
}
