ghost use Rattle.std.specs.Prelude.{IfOk};
ghost use Rattle.brick_link.specs.Ends.{IsSameLink};

use brick_link::{BrickEnd, HubEnd, beside, pair};
use bytes::Bytes;
use std::alloc::{AllocError, Global};
use std::sync::Wait;
use std::test::*;
use std::thread;

// A message that counts so many inputs.
fn message(alloc: Global, taken: u64) -> Result<Bytes, AllocError> {
    Bytes::copy_from_slice(alloc, &taken.to_be_bytes())
}

fn is_message(found: Option<Bytes>, taken: u64) -> bool {
    match found {
        Some(bytes) => bytes.as_slice() == taken.to_be_bytes().as_slice(),
        None => false,
    }
}

// The room of a ring, how many messages are queued, and how many of them a first try sends.
const SENT: [(usize, u64, usize); 4] = [(1, 3, 1), (2, 2, 2), (4, 3, 3), (3, 0, 0)];

// Messages arrive in the order in which they were queued, as many at a time as the ring has room for.
#[test]
fn sends_in_order_as_far_as_there_is_room(rt: HostRuntime) -> Result<(), Fail> {
    for (room, queued, sent) in &SENT {
        let (mut hub, mut brick) = pair(rt.alloc(), *room)?;
        for number in 0..*queued {
            hub.queue(rt.alloc(), message(rt.alloc(), number)?)?;
        }
        assert!(rt; hub.try_send() == *sent);
        for number in 0..*queued {
            assert!(rt; is_message(brick.try_recv(), number));
            hub.try_send();
        }
        assert!(rt; brick.try_recv().is_none());
    }
    Ok(())
}

// What an output counts, how many inputs were sent, and whether the hub takes it.
const TAKEN: [(u64, u64, bool); 5] = [
    (0, 0, true),
    (1, 0, false),
    (1, 1, true),
    (3, 2, false),
    (3, 3, true),
];

// The hub takes an output once the inputs that it counts were sent; until then it stays in the ring.
#[test]
fn takes_an_output_after_the_inputs_that_it_counts(rt: HostRuntime) -> Result<(), Fail> {
    for (counted, inputs, taken) in &TAKEN {
        let (mut hub, mut brick) = pair(rt.alloc(), 4)?;
        for number in 0..*inputs {
            hub.queue(rt.alloc(), message(rt.alloc(), number)?)?;
        }
        hub.try_send();
        brick.queue(rt.alloc(), message(rt.alloc(), *counted)?)?;
        brick.try_send();
        assert!(rt; is_message(hub.try_recv(), *counted) == *taken);
    }
    Ok(())
}

const MESSAGES: u64 = 100;

fn next_output(rt: &impl Wait, end: &mut HubEnd) -> Bytes
    ensures { IsSameLink end.old end.new }
{
    for _ in rt.forever() {
        end.try_send();
        if let Some(output) = end.try_recv() {
            return output;
        }
        thread::yield_now();
    }
    unreachable!()
}

fn next_input(rt: &impl Wait, end: &mut BrickEnd) -> Bytes
    ensures { IsSameLink end.old end.new }
{
    for _ in rt.forever() {
        if let Some(input) = end.try_recv() {
            return input;
        }
        thread::yield_now();
    }
    unreachable!()
}

// Sends all inputs, and takes an output for each: how many came in order.
fn drive(rt: &impl Wait, alloc: Global, mut end: HubEnd) -> Result<(HubEnd, u64), AllocError>
    ensures { IfOk result (λ r. IsSameLink end r.0) }
{
    for number in 0..MESSAGES {
        end.queue(alloc, message(alloc, number)?)?;
    }
    let mut in_order = 0;
    for number in 1..MESSAGES + 1 {
        let output = next_output(rt, &mut end);
        if is_message(Some(output), number) {
            in_order = number;
        }
    }
    Ok((end, in_order))
}

// Answers each input with an output that counts the inputs so far.
fn serve(rt: &impl Wait, alloc: Global, mut end: BrickEnd) -> Result<BrickEnd, AllocError>
    ensures { IfOk result (λ r. IsSameLink end r) }
{
    let mut unsent = MESSAGES as usize;
    for number in 1..MESSAGES + 1 {
        next_input(rt, &mut end);
        end.queue(alloc, message(alloc, number)?)?;
        unsent = unsent.saturating_sub(end.try_send());
    }
    for _ in rt.forever() {
        if unsent == 0 {
            break;
        }
        unsent = unsent.saturating_sub(end.try_send());
        thread::yield_now();
    }
    Ok(end)
}

// The hub and a brick in a thread each: every input is answered, and the outputs come in order.
#[test]
fn a_hub_and_a_brick_on_threads(rt: HostRuntime) -> Result<(), Fail> {
    let (hub, brick) = pair(rt.alloc(), 4)?;
    let (driven, served) = thread::join(
        &rt,
        || -> Result<(HubEnd, u64), AllocError>
            ensures { IfOk result (λ r. IsSameLink hub r.0) }
        { drive(&rt, rt.alloc(), hub) },
        || -> Result<BrickEnd, AllocError>
            ensures { IfOk result (λ r. IsSameLink brick r) }
        { serve(&rt, rt.alloc(), brick) },
    );
    let (mut hub, in_order) = driven?;
    let mut brick = served?;
    assert!(rt; in_order == MESSAGES);
    beside(&mut hub, &mut brick);
    assert!(rt; hub.try_recv().is_none() && brick.try_recv().is_none());
    Ok(())
}
