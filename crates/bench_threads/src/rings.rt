use brick_link::{BrickEnd, HubEnd, pair};
use bytes::Bytes;
use rtrb::{Consumer, Producer, RingBuffer};
use std::alloc::{AllocError, Global};

/// How many messages a ring has room for.
pub const ROOM: usize = 64;

/// Messages of these bytes, each with memory of its own, go through a link, which is filled and emptied so
/// often: the sum of their lengths.
pub fn through_link(alloc: Global, bytes: &[u8], rounds: u32) -> Result<u64, AllocError> {
    let (mut hub, mut brick) = pair(alloc, ROOM)?;
    let sum = link_rounds(alloc, &mut hub, &mut brick, bytes, rounds);
    drop(hub);
    drop(brick);
    sum
}

fn link_rounds(
    alloc: Global,
    hub: &mut HubEnd,
    brick: &mut BrickEnd,
    bytes: &[u8],
    rounds: u32,
) -> Result<u64, AllocError> {
    let mut sum = 0u64;
    for _ in 0..rounds {
        fill_link(alloc, hub, bytes)?;
        sum = sum.wrapping_add(drain_link(brick));
    }
    Ok(sum)
}

fn fill_link(alloc: Global, hub: &mut HubEnd, bytes: &[u8]) -> Result<(), AllocError> {
    for _ in 0..ROOM {
        hub.queue(alloc, Bytes::copy_from_slice(alloc, bytes)?)?;
    }
    hub.try_send();
    Ok(())
}

fn drain_link(brick: &mut BrickEnd) -> u64 {
    let mut sum = 0u64;
    for _ in 0..ROOM {
        if let Some(message) = brick.try_recv() {
            sum = sum.wrapping_add(message.len() as u64);
        }
    }
    sum
}

/// The same through a plain ring.
pub fn through_ring(alloc: Global, bytes: &[u8], rounds: u32) -> Result<u64, AllocError> {
    let (mut producer, mut consumer) = RingBuffer::new(alloc, ROOM)?;
    let sum = ring_rounds(alloc, &mut producer, &mut consumer, bytes, rounds);
    drop(producer);
    drop(consumer);
    sum
}

fn ring_rounds(
    alloc: Global,
    producer: &mut Producer<Bytes>,
    consumer: &mut Consumer<Bytes>,
    bytes: &[u8],
    rounds: u32,
) -> Result<u64, AllocError> {
    let mut sum = 0u64;
    for _ in 0..rounds {
        fill_ring(alloc, producer, bytes)?;
        sum = sum.wrapping_add(drain_ring(consumer));
    }
    Ok(sum)
}

fn fill_ring(
    alloc: Global,
    producer: &mut Producer<Bytes>,
    bytes: &[u8],
) -> Result<(), AllocError> {
    for _ in 0..ROOM {
        let _ = producer.push(Bytes::copy_from_slice(alloc, bytes)?);
    }
    Ok(())
}

fn drain_ring(consumer: &mut Consumer<Bytes>) -> u64 {
    let mut sum = 0u64;
    for _ in 0..ROOM {
        if let Ok(message) = consumer.pop() {
            sum = sum.wrapping_add(message.len() as u64);
        }
    }
    sum
}
