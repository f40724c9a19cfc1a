use crate::units::{REPLACE, bytes_of};
use std::alloc::{AllocError, Global};
use std::test::Fail;
use wire_xdr::{Decoded, decode_rep, decode_req};

// Inputs, each with the place of the first unit that continues no encoding.
const WRONG_INPUTS: [(u32, &[u8]); 15] = [
    (0, b"6"),
    (4, b"5 2 1"),
    (8, b"5 1 0"),
    (8, b"3 1 2"),
    (16, b"0 0 5 1 d"),
    (20, b"0 0 5 1 b 0"),
    (20, b"0 0 5 1 8 5"),
    (60, b"0 0 5 1 8 2 0 0 0 2 1 0 0 0 2 1"),
    (56, b"0 0 5 1 8 2 0 0 0 2 2 0 0 0 2 0"),
    (40, b"0 0 5 1 8 2 ffffffff ffffffff ffffffff ffffffff 2"),
    (52, b"0 0 5 1 4 0 9 0 2 0 0 0 2 200"),
    (52, b"0 0 5 1 4 0 9 0 9 0 0 0 2 2"),
    (56, b"0 0 5 1 4 0 9 0 0 0 0 0 2 0 10001"),
    (48, b"0 0 5 1 7 0 0 0 2 0 0 3 1"),
    (
        96,
        b"0 0 5 1 7 0 0 0 1 2 0 3 2 0 2 1 6e000000 0 0 0 2 1 0 1 6d000000",
    ),
];

// Outputs, each with the place of the first unit that continues no encoding.
const WRONG_OUTPUTS: [(u32, &[u8]); 6] = [
    (8, b"0 1 5"),
    (20, b"0 1 0 0 5 5"),
    (24, b"0 1 0 0 5 0 4"),
    (32, b"0 1 0 0 5 0 1 1 2"),
    (28, b"0 1 0 0 5 0 2 3"),
    (28, b"0 1 0 0 5 0 3 100001"),
];

fn place_of<T: Drop>(decoded: Decoded<T>) -> Option<u32> {
    match decoded {
        Decoded::Front { value: _, used: _ } => None,
        Decoded::Bad(error) => Some(error.place),
    }
}

// The place at which the bytes stop being an input.
fn input_place(alloc: Global, bytes: &[u8]) -> Result<Option<u32>, AllocError> {
    Ok(place_of(decode_req(alloc, bytes)?))
}

// The place at which the bytes stop being an output.
fn output_place(alloc: Global, bytes: &[u8]) -> Result<Option<u32>, AllocError> {
    Ok(place_of(decode_rep(alloc, bytes)?))
}

#[test]
fn wrong_inputs_have_their_place(rt: HostRuntime) -> Result<(), Fail> {
    for (place, units) in &WRONG_INPUTS {
        let bytes = bytes_of(rt.alloc(), units)?;
        assert!(rt; input_place(rt.alloc(), bytes.as_slice())? == Some(*place));
    }
    Ok(())
}

#[test]
fn wrong_outputs_have_their_place(rt: HostRuntime) -> Result<(), Fail> {
    for (place, units) in &WRONG_OUTPUTS {
        let bytes = bytes_of(rt.alloc(), units)?;
        assert!(rt; output_place(rt.alloc(), bytes.as_slice())? == Some(*place));
    }
    Ok(())
}

// Each prefix of the replace ends too early, the one of 59 bytes too.
#[test]
fn cut_replace_has_its_length_as_place(rt: HostRuntime) -> Result<(), Fail> {
    let bytes = bytes_of(rt.alloc(), REPLACE)?;
    assert!(rt; bytes.len() == 60);
    for length in 0..bytes.len() {
        let place = input_place(rt.alloc(), &bytes[..length])?;
        assert!(rt; place == Some(length as u32));
    }
    Ok(())
}

// A last byte of 1, in the padding.
#[test]
fn padding_of_the_replace_is_zero(rt: HostRuntime) -> Result<(), Fail> {
    let mut bytes = bytes_of(rt.alloc(), REPLACE)?;
    bytes.pop();
    bytes.push(1)?;
    assert!(rt; input_place(rt.alloc(), bytes.as_slice())? == Some(56));
    Ok(())
}
