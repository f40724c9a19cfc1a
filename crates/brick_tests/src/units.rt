use std::alloc::{AllocError, Global};

/// The replace of the data of gfid 2 by the bytes `ab` with last 3, in graph 1 with wind 1: 60 bytes.
pub const REPLACE: &[u8] = b"0 0 1 1 7 0 0 0 2 0 0 3 0 2 61620000";

/// The bytes of a message that is written as its units.
pub fn bytes_of(alloc: Global, units: &[u8]) -> Result<Vec<u8>, AllocError> {
    let mut bytes = Vec::new(alloc);
    let mut unit = 0u32;
    for digit in units {
        if *digit == b' ' {
            bytes.extend_from_slice(&unit.to_be_bytes())?;
            unit = 0;
        } else {
            unit = unit.wrapping_mul(16).wrapping_add(value_of(*digit));
        }
    }
    bytes.extend_from_slice(&unit.to_be_bytes())?;
    Ok(bytes)
}

fn value_of(digit: u8) -> u32 {
    if digit <= b'9' {
        u32::from(digit.wrapping_sub(b'0'))
    } else {
        u32::from(digit.wrapping_sub(b'a')) + 10
    }
}
