ghost use Rattle.std.specs.Prelude.{◌≡◌, ◌≤◌, length, IfOk};
ghost use Rattle.fop_types.specs.declared.store_ops.StoreOp.TheVariants as op;
ghost use Rattle.fop_types.specs.declared.messages.BrickReq.TheVariants as req;
ghost use Rattle.fop_types.specs.declared.messages.Input.TheVariants as input;
ghost use Rattle.wire_xdr.specs.Limits.{max_data};
ghost use Rattle.wire_xdr.specs.WireText.{IsInput};

use fop_types::{BrickReq, Data, Gfid, Input, StoreOp};
use std::alloc::{AllocError, Global};
use wire_xdr::{Decoded, decode_req, encode_req};

/// The bytes of a write: as many as one may have.
pub const SIZE: usize = 65536;

/// More bytes than the message of a write has.
const ABOVE_MESSAGE: usize = 98304;

/// The bytes that are written.
pub fn payload(alloc: Global) -> Result<Data, AllocError>
    ensures { IfOk result (λ bytes. length bytes ≡ max_data) }
{
    let block = [7u8; SIZE];
    let bytes = Vec::from_slice(alloc, &block)?;
    Ok(Data::from_vec(bytes))
}

/// The request that writes these bytes.
pub fn request(bytes: Data) -> Input
    requires { length bytes ≤ max_data }
    ensures encodable { IsInput result }
    ensures said { result ≡ input.Request 5 1 (req.Op 9 0 (op.Write (record { hi = 0; lo = 2 }) 0 bytes)) }
{
    let op = StoreOp::Write {
        gfid: Gfid { hi: 0, lo: 2 },
        offset: 0,
        bytes,
    };
    let req = BrickReq::Op {
        change: 9,
        fd: 0,
        op,
    };
    Input::Request {
        wind: 5,
        graph: 1,
        req,
    }
}

/// The message of an input. Memory below it is held meanwhile and then given back, so that each round
/// which is timed takes that memory again, and none asks the system for pages.
pub fn message(alloc: Global, input: &Input) -> Result<Vec<u8>, AllocError>
    requires { IsInput input.now }
{
    let _held: Vec<u8> = Vec::with_capacity(alloc, ABOVE_MESSAGE)?;
    encode_req(alloc, input)
}

/// What is timed.
#[derive(Clone, Copy)]
pub enum Work {
    Copy,
    Encode,
    Decode,
}

/// The sum of a byte of what each of so many rounds of this work gives.
pub fn sum_of(
    alloc: Global,
    work: Work,
    bytes: &[u8],
    input: &Input,
    message: &[u8],
    rounds: u32,
) -> Result<u64, AllocError>
    requires { IsInput input.now }
{
    let mut sum = 0u64;
    for round in 0..rounds {
        sum = sum.wrapping_add(byte_of_round(alloc, work, bytes, input, message, round)?);
    }
    Ok(sum)
}

fn byte_of_round(
    alloc: Global,
    work: Work,
    bytes: &[u8],
    input: &Input,
    message: &[u8],
    round: u32,
) -> Result<u64, AllocError>
    requires { IsInput input.now }
{
    match work {
        Work::Copy => byte_of_made(Vec::from_slice(alloc, bytes), round),
        Work::Encode => byte_of_made(encode_req(alloc, input), round),
        Work::Decode => byte_of_read(decode_req(alloc, message), round),
    }
}

/// A byte of a copy or an encoding, which ends here.
fn byte_of_made(made: Result<Vec<u8>, AllocError>, round: u32) -> Result<u64, AllocError> {
    let made = made?;
    Ok(byte_of(made.as_slice(), round))
}

/// A byte of what the input of a message writes; the input ends here.
fn byte_of_read(read: Result<Decoded<Input>, AllocError>, round: u32) -> Result<u64, AllocError> {
    let answer = read?;
    let byte = byte_of_decoded(&answer, round);
    drop(answer);
    Ok(byte)
}

/// A byte of what the input of a message writes, or 0 where it writes nothing.
fn byte_of_decoded(answer: &Decoded<Input>, round: u32) -> u64 {
    match answer {
        Decoded::Front {
            value: Input::Request { req, .. },
            ..
        } => byte_of_request(req, round),
        _ => 0,
    }
}

fn byte_of_request(req: &BrickReq, round: u32) -> u64 {
    match req {
        BrickReq::Op {
            op: StoreOp::Write { bytes, .. },
            ..
        } => byte_of(bytes.as_slice(), round),
        _ => 0,
    }
}

/// A byte of which the place changes from round to round.
fn byte_of(bytes: &[u8], round: u32) -> u64 {
    match bytes.get(round as usize % SIZE) {
        Some(byte) => u64::from(*byte),
        None => 0,
    }
}
