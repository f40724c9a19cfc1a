//! The audits of a log, each by its letter.
ghost use Rattle.script_lang.specs.Accepted.{IsAccepted};

use brick_machine::Brick;
use graph_build::Plan;
use line_audit::connects_are_caused;
use log_audit::{
    arrivals_are_honest, arrivals_are_outputs, is_finished, submits_are_in_order,
    winds_are_balanced, winds_are_once,
};
use mount_log::Log;
use mount_log::heads::heads_of;
use script_lang::Script;
use std::alloc::{AllocError, Global};

/// Puts the letters of the audits that answer false behind others: `w` of the winds, `o`
/// of winds that may be open still, `b` of what the bricks put out, `a` of the arrivals,
/// `c` of the connects, `s` of the submissions, and `f` of what is finished. Where it is
/// false that the bricks put out what arrived, neither `a` nor `c` is asked.
pub(crate) fn note_refusals(
    alloc: Global,
    letters: &mut Vec<u8>,
    script: &Script,
    plans: &[Plan],
    log: &Log,
    bricks: &[Brick],
) -> Result<(), AllocError>
    requires { IsAccepted script.now }
{
    note_winds(alloc, letters, log)?;
    note_arrived(alloc, letters, script, plans, log, bricks)?;
    note(letters, submits_are_in_order(alloc, script, log), b"s")?;
    note(letters, is_finished(alloc, script, log), b"f")
}

fn note_winds(alloc: Global, letters: &mut Vec<u8>, log: &Log) -> Result<(), AllocError> {
    let winds = log.winds.as_slice();
    note(letters, winds_are_balanced(alloc, winds), b"w")?;
    note(letters, winds_are_once(alloc, winds), b"o")
}

fn note_arrived(
    alloc: Global,
    letters: &mut Vec<u8>,
    script: &Script,
    plans: &[Plan],
    log: &Log,
    bricks: &[Brick],
) -> Result<(), AllocError> {
    if !arrivals_are_outputs(log, bricks) {
        return letters.extend_from_slice(b"b");
    }
    let heads = heads_of(alloc, log.events.as_slice())?;
    let honest = arrivals_are_honest(log, heads.as_slice(), bricks);
    note(letters, Ok(honest), b"a")?;
    let caused = connects_are_caused(alloc, script, plans, log, heads.as_slice());
    note(letters, caused, b"c")
}

fn note(
    letters: &mut Vec<u8>,
    holds: Result<bool, AllocError>,
    letter: &[u8],
) -> Result<(), AllocError> {
    if holds? {
        Ok(())
    } else {
        letters.extend_from_slice(letter)
    }
}
