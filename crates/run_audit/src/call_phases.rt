//! Whether calls are submitted and answered in the phases of their lines.
ghost use Rattle.std.specs.Prelude.{◌↔◌, IsTrue};
ghost use Rattle.run_audit.specs.CallPhases.{AreInPhases, IsAnsweredIn, AreAnsweredIn};

use crate::phase_ends::{end_of, is_within};
use log_audit::calls_made::{CallMade, call_of};
use mount_log::ReplyLine;

/// Whether each call was submitted within the phase of its line.
pub fn are_in_phases(calls: &[CallMade], ended: &[u64], last: u64) -> bool
    ensures { IsTrue result ↔ AreInPhases ended.now last calls.now }
{
    for k in 0..calls.len() {
        let Some(call) = calls.get(k) else {
            return false;
        };
        if !is_within(ended, last, call.phase as usize, call.event) {
            return false;
        }
    }
    true
}

fn is_answered_in(calls: &[CallMade], ended: &[u64], last: u64, reply: &ReplyLine) -> bool
    ensures { IsTrue result ↔ IsAnsweredIn calls.now ended.now last reply.now }
{
    match call_of(calls, reply.call) {
        Some(call) => reply.event <= end_of(ended, last, call.phase as usize),
        None => false,
    }
}

/// Whether each reply is to a call, and comes before the end of the phase of its line.
pub fn are_answered_in(calls: &[CallMade], ended: &[u64], last: u64, replies: &[ReplyLine]) -> bool
    ensures { IsTrue result ↔ AreAnsweredIn calls.now ended.now last replies.now }
{
    for k in 0..replies.len() {
        let Some(reply) = replies.get(k) else {
            return false;
        };
        if !is_answered_in(calls, ended, last, reply) {
            return false;
        }
    }
    true
}
