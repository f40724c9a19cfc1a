use fop_types::{Call, Proc, Seq};
use volfile::{BrickLine, Volfile};

/// A line that makes a call. `session` is the number of the line's session, from 0, in the order in which
/// `do` lines first name them.
#[derive(Drop)]
pub struct CallLine {
    pub line: u32,
    pub session: u8,
    pub call: Call,
}

/// When a control is carried out: in its turn, or directly before or after the request to a brick that
/// is the nth of its procedure in the phase. `Before(b, p, n)` and `After(b, p, n)` name the brick by its
/// number, from 0; n is 1 to 65,535.
#[derive(Clone, Copy)]
pub enum When {
    Now,
    Before(u8, Proc, u32),
    After(u8, Proc, u32),
}

/// What a control does. Bricks and volfiles are named by their numbers, from 0. `Down(b, s)` has s, 0 to
/// 65,535, requests served before the brick goes down; `Fault(b, p, n)` has the nth request of the
/// procedure, 1 to 65,535, answered by a fault.
#[derive(Clone, Copy)]
pub enum Action {
    Down(u8, u32),
    Up(u8),
    Cut(u8),
    Fault(u8, Proc, u32),
    Heal,
    Switch(u8),
}

/// A line that controls bricks or the mount.
#[derive(Clone, Copy)]
pub struct ControlLine {
    pub line: u32,
    pub when: When,
    pub action: Action,
}

/// A phase: its calls and its controls, each in the order of their lines.
#[derive(Drop)]
pub struct Phase {
    pub calls: Seq<CallLine>,
    pub controls: Seq<ControlLine>,
}

/// A volfile and its name in the script.
#[derive(Drop)]
pub struct NamedVolfile {
    pub name: Seq<u8>,
    pub volfile: Volfile,
}

/// An accepted script. `start` is the number of the volfile that is mounted first, from 0; `sessions` are
/// the names of the sessions by their numbers.
#[derive(Drop)]
pub struct Script {
    pub bricks: Seq<BrickLine>,
    pub volfiles: Seq<NamedVolfile>,
    pub start: u8,
    pub sessions: Seq<Seq<u8>>,
    pub phases: Seq<Phase>,
}
