//! What a control does.
ghost use Rattle.std.specs.Prelude.{◌≡◌, ◌↔◌, Some, IsTrue};
ghost use Rattle.mount_log.specs.Procedures.{proc_by};
ghost use Rattle.brick_machine.specs.State.{place_of};
ghost use Rattle.script_lang.specs.StatementText.{is_great_action};
ghost use Rattle.hub_tables.specs.PhaseControls.{same_action};
ghost use Rattle.hub_tables.specs.Arming.{is_armable};

use fop_types::Proc;
use script_lang::Action;

/// The place of a procedure among the procedures, from 0.
pub(crate) fn proc_rank(proc: Proc) -> u8
    ensures place { result ≡ place_of proc }
    ensures proc { proc_by (Some result) ≡ Some proc }
{
    proc as u8
}

/// What is due next: a session submits, a task is run, an action is carried out, or it is armed for a request.
#[derive(Clone, Copy)]
pub enum Due {
    Submit(u8),
    Run(u32, u32),
    Act(Action),
    Arm(u8, Proc, u32, Action),
}

/// What a turn of the hub did: it took an output or ran a task, or there was neither.
#[derive(Clone, Copy, PartialEq, Eq)]
pub enum Turned {
    Did,
    Quiet { ready: u32, arrived: u32 },
}

/// Whether two actions are the same.
#[tactic(auto, using(crate::proofs::Places::other_procs))]
pub(crate) fn is_same(one: Action, other: Action) -> bool
    ensures same { IsTrue result ↔ (one ≡ other) }
    ensures value { result ≡ same_action one other }
{
    match (one, other) {
        (Action::Down(a, s), Action::Down(b, t)) => a == b && s == t,
        (Action::Up(a), Action::Up(b)) => a == b,
        (Action::Cut(a), Action::Cut(b)) => a == b,
        (Action::Fault(a, p, m), Action::Fault(b, q, n)) => a == b && p == q && m == n,
        (Action::Heal, Action::Heal) => true,
        (Action::Switch(a), Action::Switch(b)) => a == b,
        _ => false,
    }
}

/// Whether an action begins an internal call: a heal or a switch.
pub(crate) fn is_great(action: Action) -> bool
    ensures { result ≡ is_great_action action }
{
    match action {
        Action::Heal => true,
        Action::Switch(_) => true,
        Action::Down(_, _) => false,
        Action::Up(_) => false,
        Action::Cut(_) => false,
        Action::Fault(_, _, _) => false,
    }
}

/// Whether an action may be armed for a request to this brick: to go down, or to fail a request.
pub fn may_be_armed(brick: u8, action: Action) -> bool
    ensures { result ≡ is_armable brick action }
{
    match action {
        Action::Down(at, _) => at == brick,
        Action::Fault(at, proc, number) => at == brick && proc != Proc::Unlock && number > 0,
        _ => false,
    }
}
