use crate::units::{REPLACE, bytes_of};
use fop_types::{Aspect, BrickReq, Cell, Content, Data, Gfid, Input, OutKind, Output};
use std::alloc::{AllocError, Global};
use std::test::Fail;
use wire_xdr::{Decoded, decode_rep, decode_req, encode_rep, encode_req};

// Every procedure, control and store operation.
const INPUTS: [&[u8]; 31] = [
    b"0 0 5 1 1 7 1 2 0 0 0 2 0 0 0 0 2 1",
    b"0 0 5 1 1 7 1 4 0 0 0 2 0 0 0 0 2 1 0 0 0 3 0 0 0 0 3 1",
    b"0 0 5 1 2 7",
    b"0 0 5 1 3 0 9 1 0 0 0 2 2",
    b"0 0 5 1 4 0 9 0 0 0 0 0 2 4 1 61000000",
    b"0 0 5 1 4 0 9 0 1 0 0 0 2 a",
    b"0 0 5 1 4 0 9 0 2 0 0 0 2 1ff",
    b"0 0 5 1 4 0 9 0 3 0 0 0 2 6 75736572 2e610000 1 78000000",
    b"0 0 5 1 4 0 9 0 4 0 0 0 2 6 75736572 2e610000",
    b"0 0 5 1 4 0 9 0 5 0 0 0 1 1 6e000000 0 0 0 2 2 1 76000000 1c0 1 0 ffffffff",
    b"0 0 5 1 4 0 9 0 6 0 0 0 1 1 6e000000",
    b"0 0 5 1 4 0 9 0 7 0 0 0 1 1 6e000000 0 0 0 2",
    b"0 0 5 1 4 0 9 0 8 0 0 0 1 1 6e000000 0 0 0 3 1 6d000000",
    b"0 0 5 1 4 0 9 0 9 0 0 0 2 0",
    b"0 0 5 1 5 0 9 1 0 0 0 2 0 3",
    b"0 0 5 1 5 0 9 2 1 2 3 4 2 1 2 3 5 0 0",
    b"0 0 5 1 6 0 0 0 0 2 0",
    REPLACE,
    b"0 0 5 1 7 0 0 0 2 1 0 3 1 1a4 1 6 75736572 2e610000 0 0",
    b"0 0 5 1 7 0 0 0 1 2 0 3 2 0 1 1 6e000000 0 0 0 2 1 0",
    b"0 0 5 1 7 0 0 0 1 2 0 3 2 1 2 1 6d000000 0 0 0 3 0 0 2 6d6e0000 0 0 0 2 1 0",
    b"0 0 5 1 8 1 0 0 0 2 0 1",
    b"0 0 5 1 9 1 0 0 0 2 0 1f",
    b"0 0 5 1 a",
    b"0 0 5 1 b 1 0 0 0 2",
    b"0 0 5 1 c 1",
    b"1 3",
    b"2",
    b"3 1 1",
    b"4 1",
    b"5 c ffffffff",
];

// Every output, status and arm of a Done.
const OUTPUTS: [&[u8]; 12] = [
    b"0 1 0 0 5 0 0",
    b"0 1 0 0 5 0 1 1 1 2 a b c d e 0 3",
    b"0 1 0 0 5 0 2 0 1 61000000 0 3",
    b"0 1 0 0 5 0 3 2 0 0 0 2 0 0 0 0 2 1",
    b"0 1 0 0 5 1",
    b"0 1 0 0 5 2",
    b"0 1 0 0 5 3",
    b"0 1 0 0 5 4",
    b"0 1 1",
    b"0 1 2",
    b"0 1 3 1 1",
    b"0 1 4 3c",
];

// Whether all of the bytes are one input, which is encoded as these bytes in memory of their length.
fn is_input(alloc: Global, bytes: &[u8]) -> Result<bool, AllocError> {
    match decode_req(alloc, bytes)? {
        Decoded::Front { value, used } => Ok(is_exact(encode_req(alloc, &value), used, bytes)),
        Decoded::Bad(_) => Ok(false),
    }
}

// Whether all of the bytes are one output, which is encoded as these bytes in memory of their length.
fn is_output(alloc: Global, bytes: &[u8]) -> Result<bool, AllocError> {
    match decode_rep(alloc, bytes)? {
        Decoded::Front { value, used } => Ok(is_exact(encode_rep(alloc, &value), used, bytes)),
        Decoded::Bad(_) => Ok(false),
    }
}

fn is_exact(again: Result<Vec<u8>, AllocError>, used: u32, bytes: &[u8]) -> bool {
    match again {
        Ok(again) => {
            used as usize == bytes.len()
                && again.capacity() == bytes.len()
                && again.as_slice() == bytes
        }
        Err(_) => false,
    }
}

#[test]
fn inputs_are_encoded_again(rt: HostRuntime) -> Result<(), Fail> {
    for units in &INPUTS {
        let bytes = bytes_of(rt.alloc(), units)?;
        assert!(rt; is_input(rt.alloc(), bytes.as_slice())?);
    }
    Ok(())
}

#[test]
fn outputs_are_encoded_again(rt: HostRuntime) -> Result<(), Fail> {
    for units in &OUTPUTS {
        let bytes = bytes_of(rt.alloc(), units)?;
        assert!(rt; is_output(rt.alloc(), bytes.as_slice())?);
    }
    Ok(())
}

// A write of the most bytes.
#[test]
fn longest_write_is_encoded_again(rt: HostRuntime) -> Result<(), Fail> {
    let mut bytes = bytes_of(rt.alloc(), b"0 0 5 1 4 0 9 0 0 0 0 0 2 0 10000")?;
    bytes.extend_from_slice(&[0u8; 65536])?;
    assert!(rt; is_input(rt.alloc(), bytes.as_slice())?);
    Ok(())
}

// The unlock by call 7 in graph 1 with wind 5.
fn unlock(alloc: Global) -> Result<Vec<u8>, AllocError> {
    let input = Input::Request {
        wind: 5,
        graph: 1,
        req: BrickReq::Unlock { call: 7 },
    };
    encode_req(alloc, &input)
}

// The replace of `REPLACE`.
fn replace(alloc: Global) -> Result<Vec<u8>, AllocError> {
    let content = Content::Bytes(Data::from_vec(Vec::from_slice(alloc, b"ab")?));
    let cell = Cell {
        gfid: Gfid { hi: 0, lo: 2 },
        aspect: Aspect::Data,
    };
    let req = BrickReq::Replace {
        cell,
        last: 3,
        content,
    };
    let input = Input::Request {
        wind: 1,
        graph: 1,
        req,
    };
    encode_req(alloc, &input)
}

// The second output of a brick: what it was sent is no input at 60.
fn malformed(alloc: Global) -> Result<Vec<u8>, AllocError> {
    let output = Output {
        taken: 2,
        kind: OutKind::Malformed { place: 60 },
    };
    encode_rep(alloc, &output)
}

#[test]
fn values_have_these_units(rt: HostRuntime) -> Result<(), Fail> {
    let alloc = rt.alloc();
    assert!(rt; unlock(alloc)?.as_slice() == bytes_of(alloc, b"0 0 5 1 2 7")?.as_slice());
    assert!(rt; replace(alloc)?.as_slice() == bytes_of(alloc, REPLACE)?.as_slice());
    assert!(rt; malformed(alloc)?.as_slice() == bytes_of(alloc, b"0 2 4 3c")?.as_slice());
    Ok(())
}
