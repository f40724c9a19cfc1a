//! A request that keeps the bytes of its message in the place of a copy.
//!
//! A write and a replacement of a file's bytes are long, and these bytes are the last of the message. What is there is
//! compared with the copy, and then takes its place: journal and store share one buffer.
ghost use Rattle.std.specs.Prelude.{◌≡◌, true, IfOk};

use bytes::Bytes;
use fop_types::{BrickReq, Content, Data, Input, StoreOp};
use std::alloc::AllocError;
use wire_messages::Message;

// The fewest bytes that are shared.
const PAGE: usize = 4096;

fn is_same(one: &[u8], other: &[u8]) -> bool
    ensures { result ≡ true → one.now ≡ other.now }
{
    one == other
}

// So many bytes before the padding at the end of a message, if they are many.
fn last_bytes(message: &Bytes, count: usize) -> Result<Option<Bytes>, AllocError> {
    let padding = (4 - count % 4) % 4;
    let whole = count.saturating_add(padding);
    if count < PAGE || message.len() < whole {
        return Ok(None);
    }
    let mut rest = message.clone()?;
    rest.advance(message.len() - whole);
    rest.truncate(count);
    Ok(Some(rest))
}

// The same data, as a part of other bytes if it is there.
fn as_part(part: Option<Bytes>, bytes: Data) -> Data
    ensures { result ≡ bytes }
{
    match part {
        None => bytes,
        Some(part) => {
            if !is_same(part.as_slice(), bytes.as_slice()) {
                drop(part);
                return bytes;
            }
            drop(bytes);
            Data::from_shared(part)
        }
    }
}

fn shared_data(message: &Bytes, bytes: Data) -> Result<Data, AllocError>
    ensures { IfOk result (λ d. d ≡ bytes) }
{
    match last_bytes(message, bytes.len()) {
        Ok(part) => Ok(as_part(part, bytes)),
        Err(error) => {
            drop(bytes);
            Err(error)
        }
    }
}

fn shared_op(message: &Bytes, op: StoreOp) -> Result<StoreOp, AllocError>
    ensures { IfOk result (λ o. o ≡ op) }
{
    match op {
        StoreOp::Write {
            gfid,
            offset,
            bytes,
        } => {
            let bytes = shared_data(message, bytes)?;
            Ok(StoreOp::Write {
                gfid,
                offset,
                bytes,
            })
        }
        other => Ok(other),
    }
}

fn shared_content(message: &Bytes, content: Content) -> Result<Content, AllocError>
    ensures { IfOk result (λ c. c ≡ content) }
{
    match content {
        Content::Bytes(bytes) => {
            let bytes = shared_data(message, bytes)?;
            Ok(Content::Bytes(bytes))
        }
        other => Ok(other),
    }
}

fn shared_request(message: &Bytes, req: BrickReq) -> Result<BrickReq, AllocError>
    ensures { IfOk result (λ r. r ≡ req) }
{
    match req {
        BrickReq::Op { change, fd, op } => {
            let op = shared_op(message, op)?;
            Ok(BrickReq::Op { change, fd, op })
        }
        BrickReq::Replace {
            cell,
            last,
            content,
        } => {
            let content = shared_content(message, content)?;
            Ok(BrickReq::Replace {
                cell,
                last,
                content,
            })
        }
        other => Ok(other),
    }
}

fn shared_input(message: &Bytes, input: Input) -> Result<Input, AllocError>
    ensures { IfOk result (λ i. i ≡ input) }
{
    match input {
        Input::Request { wind, graph, req } => {
            let req = shared_request(message, req)?;
            Ok(Input::Request { wind, graph, req })
        }
        other => Ok(other),
    }
}

/// The same input, which keeps the long bytes at the end of the message that it is read from in the place of its own.
///
/// # Errors
/// Out of memory: the message has too many owners.
pub(crate) fn shared(message: &Bytes, read: Message<Input>) -> Result<Message<Input>, AllocError>
    ensures { IfOk result (λ m. m ≡ read) }
{
    match read {
        Message::Whole(input) => {
            let input = shared_input(message, input)?;
            Ok(Message::Whole(input))
        }
        Message::Wrong { place } => Ok(Message::Wrong { place }),
    }
}
