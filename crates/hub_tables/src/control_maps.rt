//! Looks into the tables of a phase's controls.
ghost use Rattle.std.specs.Prelude.{◌≡◌, slice_get, OnOk};
ghost use Rattle.hub_tables.specs.PhaseControls.{first_of_request, place_by as place_of_action, entry_by as entry_of_control, is_arm as is_arm_of, armed_by as place_of_arm, coming, waiting};

use crate::actions::{Due, is_same, proc_rank};
use crate::controls::Rank;
use crate::requests::Nth;
use fop_types::Proc;
use script_lang::{Action, ControlLine};
use std::alloc::AllocError;
use std::collections::BTreeMap;

#[tactic(auto, using(crate::proofs::PhaseControls::none_first))]
pub(crate) fn first_of<T: Copy>(map: &BTreeMap<u32, T>) -> Option<(u32, T)>
    ensures { result ≡ slice_get map.now.entries 0 }
{
    match map.first_key_value() {
        Some((at, value)) => Some((*at, *value)),
        None => None,
    }
}

// The place of an entry, where it has this action.
pub(crate) fn place_by(entry: Option<(u32, Action)>, action: Action) -> Option<u32>
    ensures { result ≡ place_of_action entry action }
{
    match entry {
        Some((order, found)) => {
            if is_same(found, action) {
                Some(order)
            } else {
                None
            }
        }
        None => None,
    }
}

pub(crate) fn entry_by(control: Option<(u32, ControlLine)>) -> Option<(u32, Action)>
    ensures { result ≡ entry_of_control control }
{
    match control {
        Some((order, control)) => Some((order, control.action)),
        None => None,
    }
}

pub(crate) fn is_arm(due: Due, brick: u8, proc: Proc, count: u32, action: Action) -> bool
    ensures { result ≡ is_arm_of due brick proc count action }
{
    match due {
        Due::Arm(at, which, nth, what) => {
            at == brick
                && proc_rank(which) == proc_rank(proc)
                && nth == count
                && is_same(what, action)
        }
        _ => false,
    }
}

// The place of an entry, where it is this one that is to be armed.
pub(crate) fn armed_by(
    entry: Option<(u32, Due)>,
    brick: u8,
    proc: Proc,
    count: u32,
    action: Action,
) -> Option<u32>
    ensures { result ≡ place_of_arm entry brick proc count action }
{
    match entry {
        Some((order, due)) => {
            if is_arm(due, brick, proc, count, action) {
                Some(order)
            } else {
                None
            }
        }
        None => None,
    }
}

// The first rank of a request in a map.
#[tactic(auto, using(crate::proofs::Ranks::first_is, crate::proofs::Ranks::first_is_other, crate::proofs::Ranks::none_from))]
pub(crate) fn first_for<T>(map: &BTreeMap<Rank, T>, request: Nth) -> Option<Rank>
    ensures { result ≡ first_of_request map.now.entries request }
{
    let from = Rank { request, order: 0 };
    match map.range(from..).next() {
        Some((rank, _)) => {
            if rank.request == request {
                Some(*rank)
            } else {
                None
            }
        }
        None => None,
    }
}

// Moves the actions that wait for a request to those that have come.
pub(crate) fn come(
    awaited: &mut BTreeMap<Rank, Action>,
    come: &mut BTreeMap<u32, Action>,
    request: Nth,
) -> Result<(), AllocError>
    ensures awaited { OnOk result (awaited.new.entries ≡ waiting awaited.old.entries request) }
    ensures come { OnOk result (come.new.entries ≡ coming awaited.old.entries request come.old.entries) }
{
    for _ in 0..awaited.len() {
        let Some(rank) = first_for(awaited, request) else {
            return Ok(());
        };
        let Some(action) = awaited.remove(&rank) else {
            return Ok(());
        };
        come.insert(rank.order, action)?;
    }
    Ok(())
}
