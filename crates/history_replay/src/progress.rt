//! The claims of all calls, one call after another.
ghost use Rattle.std.specs.Prelude.{◌≡◌, ◌+◌, ◌<◌, ◌==◌, true, Some, None, nat_lt, length, get_or, replicate, if◌then◌else◌, IfOk, IfSome, OnOk};
ghost use Rattle.std.specs.FinMap as map;
ghost use Rattle.fop_types.specs.Calls.{makes as makes_of};
ghost use Rattle.history_replay.specs.code.Cases.{case_claims};
ghost use Rattle.history_replay.specs.code.Runs.{fits_at, after_claims, reply_at, answer_by, case_of, fits_reply as fits_reply_of, fits as fits_of, fds_after, bounds_after, after_call, after_calls, begun, state_of, GoesTo, AreClaimsOf};

use crate::cases::{AnswerAt, Case, claim_case};
use crate::claims::Claim;
use crate::filled::filled;
use crate::findings::Findings;
use crate::lookups::lookups;
use crate::places::are_between;
use crate::reading::{answer_at, found_at, index_at, number_at, places_at, reply_index};
use crate::trace::{Replied, Trace};
use flat_fs::Fds;
use fop_types::{Call, Gfid, Seq};
use std::alloc::{AllocError, Global};
use std::mem;
use submitted_calls::Submitted;

/// How far the calls of a trace are: the descriptors of each session; the number of replies that are not behind those of the
/// session's calls; how many objects the calls asked for; and the claims.
#[derive(Drop)]
pub(crate) struct Progress {
    pub at: usize,
    pub fds: Vec<Fds>,
    pub bounds: Vec<usize>,
    pub made: u64,
    pub claims: Seq<Claim>,
}

/// How many objects a call asks to be made.
pub(crate) fn makes(call: &Call) -> u64
    ensures { result ≡ makes_of call.now }
{
    match call {
        Call::Mkdir { .. } => 1,
        Call::Create { .. } => 1,
        _ => 0,
    }
}

fn answer_in<'a>(trace: &Trace<'a>, f: &Findings, count: usize, at: usize) -> Option<AnswerAt<'a>>
    ensures { result ≡ (if nat_lt at count then answer_by trace.now.replies (reply_at f.now at) else None) }
{
    if at < count {
        answer_at(trace, reply_index(f, at))
    } else {
        None
    }
}

// The case of the call at an index, which draws this gfid if it makes an object.
fn case_at<'a>(
    trace: &Trace<'a>,
    f: &'a Findings,
    count: usize,
    at: usize,
    call: &Submitted<'a>,
    made: u64,
) -> Option<Case<'a>>
    ensures { IfSome result (λ c. c ≡ case_of trace.now f.now count at call.now made) }
{
    let lookups = lookups(call.call)?;
    let lo = made.checked_add(1)?;
    Some(Case {
        call: call.call,
        lookups,
        places: places_at(trace, reply_index(f, at)),
        found: found_at(f.found.as_slice(), at),
        drawn: Gfid { hi: 0, lo },
        submitted: number_at(trace.submitted, at),
        seen: number_at(f.seen.as_slice(), at),
        first: index_at(f.first.as_slice(), at),
        last: index_at(f.last.as_slice(), at),
        reply: answer_in(trace, f, count, at),
    })
}

// Whether a call has the number behind an index.
fn is_number(call: u32, at: usize) -> bool
    ensures { result ≡ (call == at + 1) }
{
    call > 0 && (call - 1) as usize == at
}

fn fits_reply(trace: &Trace, at: usize, bound: usize, k: usize, reply: &Replied) -> bool
    ensures { result ≡ fits_reply_of trace.now at bound k (Some reply.now) }
{
    let until = number_at(trace.until, at);
    let since = number_at(trace.since, at);
    is_number(reply.call, at)
        && (bound <= k
            && (are_between(reply.places, since, until) && until as usize <= trace.history.len()))
}

// Whether a reply is that of the call, behind those of the session's calls before it, with its places between the bounds.
fn fits(trace: &Trace, at: usize, bound: usize, reply: Option<usize>) -> bool
    ensures { result ≡ fits_of trace.now at bound reply }
{
    match reply {
        None => true,
        Some(k) => match trace.replies.get(k) {
            None => false,
            Some(reply) => fits_reply(trace, at, bound, k, reply),
        },
    }
}

#[tactic(auto, using(crate::proofs::Filling::filled_next))]
fn no_fds(alloc: Global) -> Result<Vec<Fds>, AllocError>
    ensures { IfOk result (λ v. v.items ≡ replicate 256 map.empty) }
{
    let mut fds = Vec::with_capacity(alloc, 256)?;
    for _ in 0..256usize {
        fds.push(Fds::new(alloc))?;
    }
    Ok(fds)
}

impl Progress {
    fn new(alloc: Global) -> Result<Progress, AllocError>
        ensures { IfOk result (λ p. state_of p ≡ begun) }
    {
        Ok(Progress {
            at: 0,
            fds: no_fds(alloc)?,
            bounds: filled(alloc, 256, 0)?,
            made: 0,
            claims: Seq::new(alloc),
        })
    }

    // The descriptors of a session after the reply of an index.
    fn reply(
        &mut self,
        trace: &Trace,
        session: usize,
        case: &Case,
        reply: Option<usize>,
    ) -> Result<(), AllocError>
        requires { session < length self.old.fds.items }
        ensures { OnOk result (state_of self.new ≡ record (state_of self.old) { fds = fds_after self.old.fds.items session case.now (answer_by trace.now.replies reply) }) }
    {
        match answer_at(trace, reply) {
            None => Ok(()),
            Some(found) => {
                self.fds[session].after_answer(case.call, case.file_given(), found.answer)
            }
        }
    }

    fn bound(&mut self, session: usize, reply: Option<usize>) -> Result<(), AllocError>
        requires { session < length self.old.bounds.items }
        ensures { OnOk result (state_of self.new ≡ record (state_of self.old) { bounds = bounds_after self.old.bounds.items session reply }) }
    {
        match reply {
            None => Ok(()),
            Some(k) => match k.checked_add(1) {
                None => Err(AllocError),
                Some(bound) => {
                    self.bounds[session] = bound;
                    Ok(())
                }
            },
        }
    }
}

// Whether a call may be the next one: its session is there, and its reply, if it is looked at, fits.
fn may_follow(trace: &Trace, f: &Findings, count: usize, p: &Progress, call: &Submitted) -> bool
    ensures { result ≡ fits_at trace.now f.now count (state_of p.now) call.now }
{
    let session = call.session as usize;
    if session >= p.fds.len() {
        return false;
    }
    if session >= p.bounds.len() {
        return false;
    }
    if p.at >= count {
        return true;
    }
    fits(trace, p.at, p.bounds[session], reply_index(f, p.at))
}

// The claims of a call that may be the next one, and what it makes of its session.
#[tactic(auto, using(crate::proofs::Adding::goes_on, crate::proofs::Adding::goes_nowhere))]
fn go_on_with(
    alloc: Global,
    trace: &Trace,
    f: &Findings,
    p: &mut Progress,
    call: &Submitted,
    made: u64,
    case: &Case,
) -> Result<bool, AllocError>
    requires fds { call.now.session < length p.old.fds.items }
    requires bounds { call.now.session < length p.old.bounds.items }
    ensures { IfOk result (λ did. GoesTo did (state_of p.new) (after_claims trace.now f.now (state_of p.old) call.now made case.now (case_claims case.now (get_or p.old.fds.items call.now.session map.empty)))) }
{
    let session = call.session as usize;
    let reply = reply_index(f, p.at);
    if !claim_case(alloc, case, &p.fds[session], &mut p.claims)? {
        return Ok(false);
    }
    p.reply(trace, session, case, reply)?;
    p.bound(session, reply)?;
    let Some(at) = p.at.checked_add(1) else {
        return Err(AllocError);
    };
    p.at = at;
    p.made = made;
    Ok(true)
}

// One call more. It is false where the call is not lawful, whatever the flat file system answers.
#[tactic(auto, using(crate::proofs::Adding::follows, crate::proofs::Adding::in_fds, crate::proofs::Adding::in_bounds))]
fn go_on(
    alloc: Global,
    trace: &Trace,
    f: &Findings,
    count: usize,
    p: &mut Progress,
    call: &Submitted,
) -> Result<bool, AllocError>
    ensures { IfOk result (λ did. GoesTo did (state_of p.new) (after_call trace.now f.now count (state_of p.old) call.now)) }
{
    if !may_follow(trace, f, count, p, call) {
        return Ok(false);
    }
    let Some(made) = p.made.checked_add(makes(call.call)) else {
        return Err(AllocError);
    };
    let Some(case) = case_at(trace, f, count, p.at, call, made) else {
        return Err(AllocError);
    };
    go_on_with(alloc, trace, f, p, call, made, &case)
}

// All calls, one after another.
fn go_through(
    alloc: Global,
    trace: &Trace,
    f: &Findings,
    count: usize,
    p: &mut Progress,
) -> Result<bool, AllocError>
    ensures { IfOk result (λ did. did ≡ true → after_calls trace.now f.now count (Some (state_of p.old)) trace.now.calls ≡ Some (state_of p.new)) }
{
    for call in trace.calls {
        if !go_on(alloc, trace, f, count, p, call)? {
            return Ok(false);
        }
    }
    Ok(true)
}

/// Makes the claims of all calls, with those of the replies to the first `count` calls. `None` where one is not lawful, whatever
/// the flat file system answers.
///
/// # Errors
/// Out of memory.
pub(crate) fn claims_of(
    alloc: Global,
    trace: &Trace,
    f: &Findings,
    count: usize,
) -> Result<Option<Seq<Claim>>, AllocError>
    ensures { IfOk result (λ found. IfSome found (λ claims. AreClaimsOf trace.now f.now count claims)) }
{
    let mut p = Progress::new(alloc)?;
    let gone = go_through(alloc, trace, f, count, &mut p);
    let claims = mem::replace(&mut p.claims, Seq::new(alloc));
    drop(p);
    match gone {
        Ok(true) => Ok(Some(claims)),
        Ok(false) => {
            drop(claims);
            Ok(None)
        }
        Err(_) => {
            drop(claims);
            Err(AllocError)
        }
    }
}
