//! The descriptors that are open once their opens were answered.
ghost use Rattle.std.specs.Prelude.{◌≡◌, OnOk, slice_get};
ghost use Rattle.graph_nodes.specs.Calls.{asked_by, noted_as, noted_by, noted_for, noted_of};
ghost use Rattle.graph_nodes.specs.OpenWinds.{opened_in, waiting_in};

use crate::outer::{AtBrick, Waiting};
use fop_types::Gfid;
use graph_items::Clients;
use std::alloc::{AllocError, Global};
use xlator_law::WindNo;

/// The wind of a request, and whether an open that goes before it is meant.
#[derive(Clone, Copy)]
pub(crate) struct Asked {
    pub wind: WindNo,
    pub before: bool,
}

#[tactic(auto, using(crate::proofs::Giving::asked_before, crate::proofs::Giving::asked_itself))]
pub(crate) fn asked_by(w: WindNo) -> Asked
    ensures { result ≡ asked_by w }
{
    match w.request() {
        Some(wind) => Asked { wind, before: true },
        None => Asked {
            wind: w,
            before: false,
        },
    }
}

/// Notes the descriptor of an open that was answered Done while its wind is open: one that went before its request, or a
/// request that is an open itself.
///
/// # Errors
/// Out of memory.
pub(crate) fn note_opened(
    alloc: Global,
    clients: &mut Clients,
    outer: &[AtBrick],
    brick: Option<u8>,
    asked: Asked,
    done: bool,
) -> Result<(), AllocError>
    ensures { OnOk result (clients.new ≡ noted_of done clients.old outer.now brick asked) }
{
    if done {
        return note_waiting(alloc, clients, outer, brick, asked);
    }
    Ok(())
}

// Notes the descriptor that was opened by a wind, where it is open at the brick.
fn note_waiting(
    alloc: Global,
    clients: &mut Clients,
    outer: &[AtBrick],
    brick: Option<u8>,
    asked: Asked,
) -> Result<(), AllocError>
    ensures { OnOk result (clients.new ≡ noted_for clients.old outer.now brick asked) }
{
    match brick {
        Some(brick) => note_at(
            alloc,
            clients,
            brick,
            asked.before,
            waiting_at(outer, brick, asked.wind),
        ),
        None => Ok(()),
    }
}

// What is kept of a wind that is open at a brick.
fn waiting_at(outer: &[AtBrick], brick: u8, wind: WindNo) -> Option<Waiting>
    ensures { result ≡ waiting_in (slice_get outer.now brick) wind }
{
    match outer.get(brick as usize) {
        Some(at) => at.get(wind),
        None => None,
    }
}

fn note_at(
    alloc: Global,
    clients: &mut Clients,
    brick: u8,
    before: bool,
    waiting: Option<Waiting>,
) -> Result<(), AllocError>
    ensures { OnOk result (clients.new ≡ noted_by clients.old brick before waiting) }
{
    match waiting {
        Some(waiting) => note_as(alloc, clients, brick, opened_in(waiting, before)),
        None => Ok(()),
    }
}

fn note_as(
    alloc: Global,
    clients: &mut Clients,
    brick: u8,
    opened: Option<(u32, Gfid)>,
) -> Result<(), AllocError>
    ensures { OnOk result (clients.new ≡ noted_as clients.old brick opened) }
{
    match opened {
        Some((fd, gfid)) => clients.opened(alloc, brick, fd, gfid),
        None => Ok(()),
    }
}

fn opened_in(waiting: Waiting, before: bool) -> Option<(u32, Gfid)>
    ensures { result ≡ opened_in waiting before }
{
    if before { waiting.before } else { waiting.own }
}
