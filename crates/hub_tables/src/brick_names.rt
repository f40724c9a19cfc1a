//! The names under which bricks show their replicas.
ghost use Rattle.std.specs.Prelude.{◌≡◌, ◌++◌, [], false, slice_get, option_copied, IfOk, OnOk};
ghost use Rattle.hub_tables.specs.Naming.{clients_of, first_set as first_set_of, has_member as is_member, names_of, named_volfiles, set_of_plan, set_with as set_with_member, switches_among};

use brick_machine::Brick;
use fop_types::{Seq, SetPlan};
use graph_build::Plan;
use script_lang::{Action, ControlLine, Script};
use std::alloc::{AllocError, Global};

// The volfiles that a phase's controls switch to go behind these.
fn add_switches(volfiles: &mut Vec<u8>, controls: &[ControlLine]) -> Result<(), AllocError>
    ensures { OnOk result (volfiles.new.items ≡ volfiles.old.items ++ switches_among controls.now) }
{
    for control in controls {
        match control.action {
            Action::Switch(volfile) => volfiles.push(volfile)?,
            _ => {}
        }
    }
    Ok(())
}

fn volfiles_of(alloc: Global, script: &Script) -> Result<Vec<u8>, AllocError>
    ensures { IfOk result (λ volfiles. volfiles.items ≡ named_volfiles script.now) }
{
    let mut volfiles = Vec::new(alloc);
    volfiles.push(script.start)?;
    for phase in script.phases.as_slice() {
        add_switches(&mut volfiles, phase.controls.as_slice())?;
    }
    Ok(volfiles)
}

fn has_member(set: &SetPlan, brick: u8) -> bool
    ensures { result ≡ is_member set.now brick }
{
    set.bricks.as_slice().contains(&brick)
}

// The first set that has a brick.
fn set_with(sets: &[SetPlan], brick: u8) -> Option<&SetPlan>
    ensures { option_copied result ≡ set_with_member sets.now brick }
{
    for set in sets {
        if has_member(set, brick) {
            return Some(set);
        }
    }
    None
}

fn set_in(plans: &[Plan], volfile: u8, brick: u8) -> Option<&SetPlan>
    ensures { option_copied result ≡ set_of_plan (slice_get plans.now volfile) brick }
{
    match plans.get(volfile as usize) {
        Some(plan) => set_with(plan.sets.as_slice(), brick),
        None => None,
    }
}

// The set of a brick in the first of the volfiles' plans that has one.
fn first_set<'a>(plans: &'a [Plan], volfiles: &[u8], brick: u8) -> Option<&'a SetPlan>
    ensures { option_copied result ≡ first_set_of plans.now volfiles.now brick }
{
    for volfile in volfiles {
        if let Some(set) = set_in(plans, *volfile, brick) {
            return Some(set);
        }
    }
    None
}

fn copy_names(alloc: Global, names: &[Seq<u8>]) -> Result<Seq<Seq<u8>>, AllocError>
    ensures { IfOk result (λ copies. copies ≡ names.now) }
{
    let mut copies = Seq::new(alloc);
    for name in names {
        copies.push(name.copy(alloc)?)?;
    }
    Ok(copies)
}

fn client_names(alloc: Global, set: Option<&SetPlan>) -> Result<Seq<Seq<u8>>, AllocError>
    ensures { IfOk result (λ names. names ≡ clients_of (option_copied set.entry)) }
{
    match set {
        Some(set) => copy_names(alloc, set.clients.as_slice()),
        None => Ok(Seq::new(alloc)),
    }
}

/// A new brick, with the names of the clients in the first graph of the script that uses it.
///
/// # Errors
/// Out of memory.
pub fn named_brick(
    alloc: Global,
    script: &Script,
    plans: &[Plan],
    number: u8,
) -> Result<Brick, AllocError>
    ensures { IfOk result (λ brick. brick ≡ record { journal = []; names = names_of script.now plans.now number; spent = false }) }
{
    let volfiles = volfiles_of(alloc, script)?;
    let set = first_set(plans, volfiles.as_slice(), number);
    let names = client_names(alloc, set)?;
    let mut brick = Brick::new(alloc)?;
    brick.bind_names(names);
    Ok(brick)
}
