ghost use Rattle.std.specs.Prelude.{◌≡◌, ◌≤◌, [], Ok, Err, length, IfOk, OnOk, IsErrOf};
ghost use Rattle.std.specs.List.{All};
ghost use Rattle.script_lang.specs.Accepted.{IsAccepted as KeepsLimits};
ghost use Rattle.mount_log.specs.Scripts.{IsScript};
ghost use Rattle.script_commands.specs.Limits.{IsSmall};
ghost use Rattle.script_commands.specs.Plans.{after_action, after_controls, after_phases, switched, plans_of, volume_line as line_of_volume, with_plans, accepted};
ghost use Rattle.script_commands.specs.declared.readings.NotRead.TheVariants as not_read;
ghost use Rattle.script_commands.specs.declared.refusals.Refusal.{Refusal};

use crate::readings::NotRead;
use crate::refusals::Refusal;
use fop_types::Seq;
use graph_build::{Plan, PlanError, build, follows, plans_have_nodes, plans_have_sets};
use script_lang::{
    Action, ControlLine, NamedVolfile, Phase, Script, ScriptError, ScriptKind, parse,
};
use std::alloc::Global;
use volfile::{BrickLine, Volfile};

/// A text as it was accepted: its script, with the plan of each of its volfiles in order.
#[derive(Drop)]
pub struct Accepted {
    pub script: Script,
    pub plans: Seq<Plan>,
}

// The line of a volume of a volfile.
fn volume_line(volfile: &Volfile, number: u16) -> u32
    ensures { result ≡ line_of_volume volfile.now number }
{
    match volfile.volumes.as_slice().get(number as usize) {
        None => 0,
        Some(volume) => volume.line,
    }
}

// Puts the plans of these volfiles behind those that are done.
fn put_plans(
    alloc: Global,
    plans: &mut Seq<Plan>,
    volfiles: &[NamedVolfile],
    bricks: &[BrickLine],
) -> Result<(), NotRead>
    requires small { All IsSmall volfiles.now }
    requires few { length bricks.now ≤ 60 }
    ensures planned { OnOk result (plans_of plans.old volfiles.now bricks.now ≡ Ok plans.new) }
    ensures refused { (refusal : Refusal) → IsErrOf result (not_read.Refused refusal) → plans_of plans.old volfiles.now bricks.now ≡ Err refusal }
    ensures no_fault { IsErrOf result not_read.Fault → ⊥ }
{
    for named in volfiles {
        match build(alloc, &named.volfile, bricks) {
            Ok(plan) => {
                if plans.push(plan).is_err() {
                    return Err(NotRead::Mem);
                }
            }
            Err(PlanError::At { volume, kind }) => {
                return Err(NotRead::Refused(Refusal::OfPlan {
                    line: volume_line(&named.volfile, volume),
                    kind,
                }));
            }
            Err(PlanError::Mem) => return Err(NotRead::Mem),
        }
    }
    Ok(())
}

// The plans of a script's volfiles.
fn plans(
    alloc: Global,
    volfiles: &[NamedVolfile],
    bricks: &[BrickLine],
) -> Result<Seq<Plan>, NotRead>
    requires small { All IsSmall volfiles.now }
    requires few { length bricks.now ≤ 60 }
    ensures planned { IfOk result (λ plans. plans_of [] volfiles.now bricks.now ≡ Ok plans) }
    ensures refused { (refusal : Refusal) → IsErrOf result (not_read.Refused refusal) → plans_of [] volfiles.now bricks.now ≡ Err refusal }
    ensures no_fault { IsErrOf result not_read.Fault → ⊥ }
{
    let mut plans = Seq::new(alloc);
    match put_plans(alloc, &mut plans, volfiles, bricks) {
        Ok(()) => Ok(plans),
        Err(not_read) => {
            drop(plans);
            Err(not_read)
        }
    }
}

// A switch to a volfile: the number of the newest plan, or the line where it does not follow.
fn switch_to(plans: &[Plan], newest: u8, volfile: u8, line: u32) -> Result<u8, u32>
    ensures { result ≡ switched plans.now newest volfile line }
{
    match plans.get(newest as usize) {
        None => Err(line),
        Some(old) => match plans.get(volfile as usize) {
            None => Err(line),
            Some(new) => {
                if follows(old, new) {
                    Ok(volfile)
                } else {
                    Err(line)
                }
            }
        },
    }
}

fn act(plans: &[Plan], newest: u8, action: Action, line: u32) -> Result<u8, u32>
    ensures { result ≡ after_action plans.now newest action line }
{
    match action {
        Action::Switch(volfile) => switch_to(plans, newest, volfile, line),
        Action::Down(_, _) => Ok(newest),
        Action::Up(_) => Ok(newest),
        Action::Cut(_) => Ok(newest),
        Action::Fault(_, _, _) => Ok(newest),
        Action::Heal => Ok(newest),
    }
}

fn follow_controls(plans: &[Plan], first: u8, controls: &[ControlLine]) -> Result<u8, u32>
    ensures { result ≡ after_controls plans.now first controls.now }
{
    let mut newest = first;
    for control in controls {
        match act(plans, newest, control.action, control.line) {
            Ok(next) => newest = next,
            Err(line) => return Err(line),
        }
    }
    Ok(newest)
}

// The number of the newest plan after the phases, or the line of the first switch that does not follow.
fn follow_phases(plans: &[Plan], first: u8, phases: &[Phase]) -> Result<u8, u32>
    ensures { result ≡ after_phases plans.now first phases.now }
{
    let mut newest = first;
    for phase in phases {
        match follow_controls(plans, newest, phase.controls.as_slice()) {
            Ok(next) => newest = next,
            Err(line) => return Err(line),
        }
    }
    Ok(newest)
}

// A script with its plans, if its switches follow.
#[tactic(auto, using(crate::proofs::Limits::all_small))]
fn plan(alloc: Global, script: Script) -> Result<Accepted, NotRead>
    requires { KeepsLimits script }
    ensures accepted { IfOk result (λ a. with_plans script (plans_of [] script.volfiles script.bricks) ≡ Ok a) }
    ensures same { IfOk result (λ a. a.script ≡ script) }
    ensures script { IfOk result (λ a. IsScript a.script a.plans) }
    ensures refused { (refusal : Refusal) → IsErrOf result (not_read.Refused refusal) → with_plans script (plans_of [] script.volfiles script.bricks) ≡ Err refusal }
    ensures no_fault { IsErrOf result not_read.Fault → ⊥ }
{
    plans_have_sets();
    plans_have_nodes();
    match plans(alloc, script.volfiles.as_slice(), script.bricks.as_slice()) {
        Ok(plans) => match follow_phases(plans.as_slice(), script.start, script.phases.as_slice()) {
            Ok(_) => Ok(Accepted { script, plans }),
            Err(line) => {
                drop(script);
                drop(plans);
                Err(NotRead::Refused(Refusal::OfScript {
                    line,
                    kind: ScriptKind::NotFollowing,
                }))
            }
        },
        Err(error) => {
            drop(script);
            Err(error)
        }
    }
}

/// What a text of at most 2,097,152 bytes is accepted as.
///
/// # Errors
/// `Refused` with the first refusal: the grammar's by line, then those of plans in the order of volfiles,
/// then those of followings by line. `Mem` is out of memory.
pub fn accept(alloc: Global, text: &[u8]) -> Result<Accepted, NotRead>
    requires { length text.now ≤ 2097152 }
    ensures script { IfOk result (λ a. IsScript a.script a.plans) }
    ensures accepted { IfOk result (λ a. accepted text.now ≡ Ok a) }
    ensures refused { (refusal : Refusal) → IsErrOf result (not_read.Refused refusal) → accepted text.now ≡ Err refusal }
    ensures no_fault { IsErrOf result not_read.Fault → ⊥ }
{
    match parse(alloc, text) {
        Ok(script) => plan(alloc, script),
        Err(ScriptError::At { line, kind }) => {
            Err(NotRead::Refused(Refusal::OfScript { line, kind }))
        }
        Err(ScriptError::Mem) => Err(NotRead::Mem),
    }
}
