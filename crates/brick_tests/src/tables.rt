use brick_machine::Brick;
use bytes::Bytes;
use std::alloc::{AllocError, Global};

/// An input of a brick with the outputs that it causes, all in units of four bytes.
pub(crate) type Case = (&'static [u32], &'static [&'static [u32]]);

fn bytes_of(alloc: Global, units: &[u32]) -> Result<Vec<u8>, AllocError> {
    let mut bytes = Vec::new(alloc);
    for unit in units {
        bytes.extend_from_slice(&unit.to_be_bytes())?;
    }
    Ok(bytes)
}

pub(crate) fn serve(alloc: Global, brick: &mut Brick, units: &[u32]) -> Result<(), AllocError> {
    let input = Bytes::from_vec(bytes_of(alloc, units)?)?;
    brick.serve(alloc, input)
}

// Whether the outputs from a place on are these, and there are no others.
fn has_outputs(
    alloc: Global,
    brick: &Brick,
    from: usize,
    outputs: &[&[u32]],
) -> Result<bool, AllocError> {
    let mut at = from;
    for units in outputs {
        let wanted = bytes_of(alloc, units)?;
        match brick.outputs().get(at) {
            Some(made) => {
                if made.as_slice() != wanted.as_slice() {
                    return Ok(false);
                }
            }
            None => return Ok(false),
        }
        at = at.saturating_add(1);
    }
    Ok(at == brick.outputs().len())
}

// Whether a brick puts out these when it serves an input.
fn puts_out(
    alloc: Global,
    brick: &mut Brick,
    input: &[u32],
    outputs: &[&[u32]],
) -> Result<bool, AllocError> {
    let before = brick.outputs().len();
    serve(alloc, brick, input)?;
    has_outputs(alloc, brick, before, outputs)
}

/// The number of the first case, from 1, whose outputs a brick does not put out; 0 where it puts out those of each.
pub(crate) fn wrong_of(
    alloc: Global,
    brick: &mut Brick,
    cases: &[Case],
) -> Result<usize, AllocError> {
    let mut number: usize = 0;
    for (input, outputs) in cases {
        number = number.saturating_add(1);
        if !puts_out(alloc, brick, input, outputs)? {
            return Ok(number);
        }
    }
    Ok(0)
}

/// The number of the first case, from 1, whose outputs a new brick does not put out when it serves the inputs in
/// order; 0 where it puts out those of each.
pub(crate) fn first_wrong(alloc: Global, cases: &[Case]) -> Result<usize, AllocError> {
    let mut brick = Brick::new(alloc)?;
    wrong_of(alloc, &mut brick, cases)
}
