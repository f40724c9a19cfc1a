//! The requests of one graph to a brick, as the bytes of part 6 of the formats.
use bytes::Bytes;
use std::alloc::{AllocError, Global};

/// The graph that sends all requests.
const GRAPH: u32 = 1;

/// The aspect of a cell that holds a file's bytes.
const DATA: u32 = 0;

/// The procedures that are timed.
#[derive(Clone, Copy)]
pub enum Proc {
    Lock,
    Unlock,
    Mark,
    Op,
    Post,
    Fetch,
    Replace,
}

// Puts units, and so many bytes behind them.
fn put(out: &mut Vec<u8>, units: &[u32], size: u32) -> Result<(), AllocError> {
    for unit in units {
        out.extend_from_slice(&unit.to_be_bytes())?;
    }
    let end = out.len().saturating_add(size as usize);
    out.resize(end, 7)
}

// A message of units, with so many bytes behind them, a multiple of four.
fn message(alloc: Global, units: &[u32], size: u32) -> Result<Bytes, AllocError> {
    let mut out = Vec::new(alloc);
    put(&mut out, units, size)?;
    Ok(Bytes::from_vec(out)?)
}

/// The control that connects the graph.
pub fn connect(alloc: Global) -> Result<Bytes, AllocError> {
    message(alloc, &[3, GRAPH, 1], 0)
}

/// A request on the data of one file: an exclusive lock of a call or its end, what belongs to a change, or what only the
/// file has to do with. `number` is that of the call or of the change; a write, at the beginning of the file, and another
/// brick's copy have so many bytes, a multiple of four.
pub fn request(
    alloc: Global,
    proc: Proc,
    number: u32,
    file: u32,
    size: u32,
) -> Result<Bytes, AllocError> {
    match proc {
        Proc::Lock => message(
            alloc,
            &[0, 0, 1, GRAPH, 1, number, 0, 1, 0, 0, 0, file, DATA],
            0,
        ),
        Proc::Unlock => message(alloc, &[0, 0, 1, GRAPH, 2, number], 0),
        Proc::Mark => message(
            alloc,
            &[0, 0, 1, GRAPH, 3, 0, number, 1, 0, 0, 0, file, DATA],
            0,
        ),
        Proc::Op => message(
            alloc,
            &[0, 0, 1, GRAPH, 4, 0, number, 0, 0, 0, 0, 0, file, 0, size],
            size,
        ),
        Proc::Post => message(
            alloc,
            &[0, 0, 1, GRAPH, 5, 0, number, 1, 0, 0, 0, file, DATA, 0],
            0,
        ),
        Proc::Fetch => message(alloc, &[0, 0, 1, GRAPH, 6, 0, 0, 0, 0, file, DATA], 0),
        Proc::Replace => message(
            alloc,
            &[0, 0, 1, GRAPH, 7, 0, 0, 0, file, DATA, 0, 1, 0, size],
            size,
        ),
    }
}
