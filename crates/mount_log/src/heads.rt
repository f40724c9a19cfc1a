//! What the outputs that arrive say in short, read once for all audits.
ghost use Rattle.std.specs.Prelude.{◌≡◌, slice_get, IfOk};
ghost use Rattle.mount_log.specs.Outputs.{IsEncodedOutput, BringsOutput, BringOutputs};
ghost use Rattle.mount_log.specs.Heads.{head_in, head_of, heads_of};
ghost use Rattle.wire_messages.specs.Messages.{output_in};

use crate::first_units::first_head;
use crate::logs::HubEvent;
use std::alloc::{AllocError, Global};
use wire_messages::messages_read_back;

/// What an output says: it answers a wind, by Gone or otherwise; its brick was closed or opened; or something else.
#[derive(Clone, Copy)]
pub enum Said {
    Other,
    Reply(u64),
    Gone(u64),
    Closed,
    Opened,
}

/// The head of an output: how many inputs of its brick it counts, and what it says. Of bytes that are no output, and of an
/// event in which nothing arrives, the count is 0, and nothing is said.
#[derive(Clone, Copy)]
pub struct Head {
    pub taken: u64,
    pub said: Said,
}

fn arrived_head(bytes: &[u8]) -> Head
    requires { IsEncodedOutput bytes.now }
    ensures { result ≡ head_in (output_in bytes.now) }
{
    messages_read_back();
    first_head(bytes)
}

fn head_of(event: &HubEvent) -> Head
    requires { BringsOutput event.now }
    ensures { result ≡ head_of event.now }
{
    match event {
        HubEvent::Arrive { bytes, .. } => arrived_head(bytes.as_slice()),
        _ => Head {
            taken: 0,
            said: Said::Other,
        },
    }
}

/// The head of what arrives in each event, where that is the encoding of an output: `arrivals_are_outputs` finds that out. It
/// reads the first bytes alone.
///
/// # Errors
/// Out of memory.
pub fn heads_of(alloc: Global, events: &[HubEvent]) -> Result<Vec<Head>, AllocError>
    requires { BringOutputs events.now }
    ensures { IfOk result (λ heads. heads.items ≡ heads_of events.now) }
{
    let mut heads = Vec::new(alloc);
    for k in 0..events.len() {
        heads.push(head_of(&events[k]))?;
    }
    Ok(heads)
}

/// The head at this place, from 0; `None` where there are no more heads than that.
pub fn head_at(heads: &[Head], k: usize) -> Option<Head>
    ensures { result ≡ slice_get heads.now k }
{
    heads.get(k).copied()
}
