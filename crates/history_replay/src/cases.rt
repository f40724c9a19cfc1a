//! The claims of one call.
ghost use Rattle.std.specs.Prelude.{◌≡◌, ◌++◌, ◌∷◌, [], ◌&&◌, List, Some, None, IfOk, OnOk};
ghost use Rattle.flat_fs.specs.Walks.{objects};
ghost use Rattle.fop_types.specs.Calls.{Descriptors, looked_up, last_op as last_op_of};
ghost use Rattle.fop_types.specs.Flat.{is_change as is_change_of};
ghost use Rattle.fop_types.specs.Replies.{is_ok as is_ok_of};
ghost use Rattle.history_replay.specs.code.Claims.{next_lookup as next_lookup_of};
ghost use Rattle.history_replay.specs.code.Cases.{Adds, is_none as is_none_of, is_before as is_before_of, are_at_most as are_at_most_of, is_free as is_free_of, is_late as is_late_of, is_done as is_done_of, is_first as is_first_of, lookup_places, last_place as last_place_of, is_whole as is_whole_of, when, part_claims, first_by, entry_by, done_by, read_by, placed_by, answered_by, last_by, op_claims, stopped_by, unfound_by, said_by, found_by, once_by, case_claims, file_given as file_given_of};

use crate::claims::Claim;
use crate::copies::{rename_of, unlink_of};
use crate::lookups::{ROOT, claim_walk, last_found, next_lookup};
use crate::places::{are_at_most, is_app, is_change, is_io, is_ok, is_same_name};
use flat_fs::at_once::at_once;
use flat_fs::last_op::last_op;
use flat_fs::{Fds, Found};
use fop_types::{Answer, Call, FlatOp, Gfid, Seq};
use std::alloc::{AllocError, Global};
use std::marker::Model;

/// A reply by its index, with its answer.
#[derive(Drop)]
pub(crate) struct AnswerAt<'a> {
    pub reply: usize,
    pub answer: &'a Answer,
}

impl<'a> Model for AnswerAt<'a> {
    ghost use Rattle.std.specs.Prelude.{ℕ};
    ghost use Rattle.fop_types.specs.declared.answers.Answer.{Answer as Answered};

    ghost Value = { ℕ × Answered };

    ghost view = { λ r. (r.reply, r.answer.now) };
}

/// One call: its places, of which as many as it has lookups are theirs; what the lookups are said to have found; the gfid that
/// it draws; the lower bound of its places; the place where a rename is said to have been possible; the indices of its
/// entries; and its reply.
#[derive(Drop)]
pub(crate) struct Case<'a> {
    pub call: &'a Call,
    pub lookups: usize,
    pub places: &'a [u32],
    pub found: &'a [Gfid],
    pub drawn: Gfid,
    pub submitted: u32,
    pub seen: u32,
    pub first: Option<u32>,
    pub last: Option<u32>,
    pub reply: Option<AnswerAt<'a>>,
}

impl<'a> Model for Case<'a> {
    ghost use Rattle.std.specs.Option.{option_copied};
    ghost use Rattle.history_replay.specs.code.Cases.{Case as Cased};

    ghost Value = { Cased };

    ghost view = { λ c. record {
      call = c.call.now;
      lookups = c.lookups;
      places = c.places.now;
      found = c.found.now;
      drawn = c.drawn;
      submitted = c.submitted;
      seen = c.seen;
      first = c.first;
      last = c.last;
      reply = c.reply;
    } };
}

fn is_none(index: Option<u32>) -> bool
    ensures { result ≡ is_none_of index }
{
    match index {
        None => true,
        Some(_) => false,
    }
}

impl<'a> Case<'a> {
    // Whether the call has no entry.
    fn is_free(&self) -> bool
        ensures { result ≡ is_free_of self.now }
    {
        is_none(self.first) && is_none(self.last)
    }

    // Whether each lookup has a place, and is said to have found something.
    fn is_whole(&self) -> bool
        ensures { result ≡ is_whole_of self.now }
    {
        self.found.len() == self.lookups && self.lookups <= self.places.len()
    }

    // The place of the last operation, 0 where there is none.
    fn last_place(&self) -> u32
        ensures { result ≡ last_place_of self.now }
    {
        match self.places.get(self.lookups) {
            Some(place) => *place,
            None => 0,
        }
    }

    // Whether no lookup has a place above this one.
    fn looks_up_by(&self, most: u32) -> bool
        ensures { result ≡ are_at_most_of (lookup_places self.now) most }
    {
        if self.lookups <= self.places.len() {
            are_at_most(&self.places[..self.lookups], most)
        } else {
            are_at_most(self.places, most)
        }
    }

    // Whether an entry of this index may be the call's last part.
    fn is_late(&self, index: u32) -> bool
        ensures { result ≡ is_late_of self.now index }
    {
        self.submitted <= index && self.looks_up_by(index)
    }

    // Whether an entry of this index may be that of a change that is done, whose place is the last.
    fn is_done(&self, index: u32) -> bool
        ensures { result ≡ is_done_of self.now index }
    {
        self.is_late(index) && index.checked_add(1) == Some(self.last_place())
    }

    // Whether an entry of this index may be a rename's part 1.
    fn is_first(&self, index: u32) -> bool
        ensures { result ≡ is_first_of self.now index }
    {
        self.submitted <= self.seen
            && (self.looks_up_by(self.seen) && (self.seen <= index && is_before(index, self.last)))
    }

    /// The file of the descriptor that a create or an open gives.
    pub(crate) fn file_given(&self) -> Gfid
        ensures { result ≡ file_given_of self.now }
    {
        match self.call {
            Call::Create { .. } => self.drawn,
            Call::Open { .. } => {
                if self.is_whole() {
                    last_found(self.found)
                } else {
                    ROOT
                }
            }
            _ => ROOT,
        }
    }
}

fn is_before(index: u32, other: Option<u32>) -> bool
    ensures { result ≡ is_before_of index other }
{
    match other {
        None => true,
        Some(other) => index < other,
    }
}

// ---- entries

// Puts a claim to the others.
pub(crate) fn add_claim(claims: &mut Seq<Claim>, claim: Claim) -> Result<(), AllocError>
    ensures { OnOk result (claims.new ≡ claims.old ++ claim ∷ []) }
{
    claims.push(claim)?;
    Ok(())
}

// Puts a claim to the others, if it may be made.
fn claim_if(may: bool, claim: Claim, claims: &mut Seq<Claim>) -> Result<bool, AllocError>
    ensures { IfOk result (λ did. Adds did claims.old claims.new (when may (claim ∷ []))) }
{
    if !may {
        drop(claim);
        return Ok(false);
    }
    add_claim(claims, claim)?;
    Ok(true)
}

// The claims of a rename's part 1: the entry is the unlink of the new name, and the rename was possible.
fn claim_part(
    alloc: Global,
    index: u32,
    seen: u32,
    last: &FlatOp,
    claims: &mut Seq<Claim>,
) -> Result<bool, AllocError>
    ensures { IfOk result (λ did. Adds did claims.old claims.new (part_claims index seen last.now)) }
{
    match last {
        FlatOp::Rename {
            parent,
            name,
            target,
            new_name,
        } => claim_unlink(alloc, index, seen, *parent, name, *target, new_name, claims),
        _ => Ok(false),
    }
}

// Claims that an entry is the unlink of this name.
fn claim_part_entry(
    alloc: Global,
    index: u32,
    target: Gfid,
    new_name: &Seq<u8>,
    claims: &mut Seq<Claim>,
) -> Result<(), AllocError>
    ensures { OnOk result (claims.new ≡ claims.old ++ Claim.Enters index (FlatOp.Unlink target new_name.now) None ∷ []) }
{
    let op = unlink_of(alloc, target, new_name)?;
    add_claim(
        claims,
        Claim::Enters {
            index,
            op,
            reply: None,
        },
    )
}

fn claim_unlink(
    alloc: Global,
    index: u32,
    seen: u32,
    parent: Gfid,
    name: &Seq<u8>,
    target: Gfid,
    new_name: &Seq<u8>,
    claims: &mut Seq<Claim>,
) -> Result<bool, AllocError>
    ensures { IfOk result (λ did. Adds did claims.old claims.new (part_claims index seen (FlatOp.Rename parent name.now target new_name.now))) }
{
    if is_same_name(parent, name.as_slice(), target, new_name.as_slice()) {
        return Ok(false);
    }
    claim_part_entry(alloc, index, target, new_name, claims)?;
    let op = rename_of(alloc, parent, name, target, new_name)?;
    add_claim(claims, Claim::Accepts { place: seen, op })?;
    Ok(true)
}

#[tactic(auto, using(crate::proofs::Adding::adds_nothing))]
fn claim_first(
    alloc: Global,
    case: &Case,
    last: &FlatOp,
    claims: &mut Seq<Claim>,
) -> Result<bool, AllocError>
    ensures { IfOk result (λ did. Adds did claims.old claims.new (first_by case.now.first case.now last.now)) }
{
    match case.first {
        None => Ok(true),
        Some(index) => {
            if !case.is_first(index) {
                return Ok(false);
            }
            claim_part(alloc, index, case.seen, last, claims)
        }
    }
}

#[tactic(auto, using(crate::proofs::Adding::adds_nothing))]
fn claim_entry(case: &Case, last: FlatOp, claims: &mut Seq<Claim>) -> Result<bool, AllocError>
    ensures { IfOk result (λ did. Adds did claims.old claims.new (entry_by case.now.last case.now last)) }
{
    match case.last {
        None => {
            drop(last);
            Ok(true)
        }
        Some(index) => claim_if(
            case.is_late(index),
            Claim::Enters {
                index,
                op: last,
                reply: None,
            },
            claims,
        ),
    }
}

fn claim_done(
    case: &Case,
    reply: usize,
    last: FlatOp,
    claims: &mut Seq<Claim>,
) -> Result<bool, AllocError>
    ensures { IfOk result (λ did. Adds did claims.old claims.new (done_by case.now.last case.now reply last)) }
{
    match case.last {
        None => {
            drop(last);
            Ok(false)
        }
        Some(index) => claim_if(
            case.is_done(index),
            Claim::Enters {
                index,
                op: last,
                reply: Some(reply),
            },
            claims,
        ),
    }
}

fn claim_read(
    case: &Case,
    reply: usize,
    last: FlatOp,
    claims: &mut Seq<Claim>,
) -> Result<bool, AllocError>
    ensures { IfOk result (λ did. Adds did claims.old claims.new (read_by case.now reply last)) }
{
    claim_if(
        case.is_free(),
        Claim::Answers {
            place: case.last_place(),
            op: last,
            reply,
        },
        claims,
    )
}

// ---- the last operation

fn claim_placed(
    case: &Case,
    reply: &AnswerAt,
    last: FlatOp,
    claims: &mut Seq<Claim>,
) -> Result<bool, AllocError>
    ensures { IfOk result (λ did. Adds did claims.old claims.new (placed_by (is_change_of last && is_ok_of reply.now.1) case.now reply.now.0 last)) }
{
    if is_change(&last) && is_ok(reply.answer) {
        claim_done(case, reply.reply, last, claims)
    } else {
        claim_read(case, reply.reply, last, claims)
    }
}

fn claim_answered(
    case: &Case,
    reply: &AnswerAt,
    last: FlatOp,
    claims: &mut Seq<Claim>,
) -> Result<bool, AllocError>
    ensures { IfOk result (λ did. Adds did claims.old claims.new (answered_by case.now reply.now.0 reply.now.1 last)) }
{
    if case.places.len() == case.lookups {
        if !is_io(reply.answer) {
            drop(last);
            return Ok(false);
        }
        return claim_entry(case, last, claims);
    }
    if case.lookups.checked_add(1) != Some(case.places.len()) {
        drop(last);
        return Ok(false);
    }
    claim_placed(case, reply, last, claims)
}

fn claim_last(case: &Case, last: FlatOp, claims: &mut Seq<Claim>) -> Result<bool, AllocError>
    ensures { IfOk result (λ did. Adds did claims.old claims.new (last_by case.now.reply case.now last)) }
{
    match &case.reply {
        None => claim_entry(case, last, claims),
        Some(reply) => claim_answered(case, reply, last, claims),
    }
}

#[tactic(auto, using(crate::proofs::Adding::adds_both, crate::proofs::Adding::adds_stop))]
fn claim_parts(
    alloc: Global,
    case: &Case,
    last: FlatOp,
    claims: &mut Seq<Claim>,
) -> Result<bool, AllocError>
    ensures { IfOk result (λ did. Adds did claims.old claims.new (op_claims case.now (Some last))) }
{
    match claim_first(alloc, case, &last, claims) {
        Ok(true) => claim_last(case, last, claims),
        Ok(false) => {
            drop(last);
            Ok(false)
        }
        Err(_) => {
            drop(last);
            Err(AllocError)
        }
    }
}

fn claim_op(
    alloc: Global,
    case: &Case,
    last: Option<FlatOp>,
    claims: &mut Seq<Claim>,
) -> Result<bool, AllocError>
    ensures { IfOk result (λ did. Adds did claims.old claims.new (op_claims case.now last)) }
{
    match last {
        None => Ok(false),
        Some(last) => claim_parts(alloc, case, last, claims),
    }
}

// ---- a call whose lookups did not find all

// Claims the answer of the lookup that found nothing.
fn claim_next(
    alloc: Global,
    case: &Case,
    place: u32,
    reply: usize,
    claims: &mut Seq<Claim>,
) -> Result<(), AllocError>
    ensures { OnOk result (claims.new ≡ claims.old ++ Claim.Answers place (next_lookup_of (looked_up case.now.call) case.now.found) reply ∷ []) }
{
    let op = next_lookup(alloc, case.call, case.found)?;
    add_claim(claims, Claim::Answers { place, op, reply })
}

#[tactic(auto, using(crate::proofs::Adding::adds_nothing))]
fn claim_stopped(
    alloc: Global,
    case: &Case,
    reply: &AnswerAt,
    claims: &mut Seq<Claim>,
) -> Result<bool, AllocError>
    ensures { IfOk result (λ did. Adds did claims.old claims.new (stopped_by case.now reply.now.0 reply.now.1)) }
{
    if case.places.len() == case.found.len() {
        return Ok(is_io(reply.answer));
    }
    if !is_app(reply.answer) {
        return Ok(false);
    }
    let Some(place) = case.places.last() else {
        return Ok(false);
    };
    if case.places.len() - 1 != case.found.len() {
        return Ok(false);
    }
    claim_next(alloc, case, *place, reply.reply, claims)?;
    Ok(true)
}

#[tactic(auto, using(crate::proofs::Adding::adds_nothing))]
fn claim_unfound(alloc: Global, case: &Case, claims: &mut Seq<Claim>) -> Result<bool, AllocError>
    ensures { IfOk result (λ did. Adds did claims.old claims.new (unfound_by case.now.reply case.now)) }
{
    match &case.reply {
        None => Ok(true),
        Some(reply) => {
            if case.found.len() >= case.lookups {
                return Ok(false);
            }
            claim_stopped(alloc, case, reply, claims)
        }
    }
}

// ---- the call

#[tactic(auto, using(crate::proofs::Adding::adds_nothing))]
fn claim_said(case: &Case, answer: Answer, claims: &mut Seq<Claim>) -> Result<bool, AllocError>
    ensures { IfOk result (λ did. Adds did claims.old claims.new (said_by case.now.reply case.now answer)) }
{
    match &case.reply {
        None => {
            drop(answer);
            Ok(true)
        }
        Some(reply) => claim_if(
            case.places.is_empty(),
            Claim::Says {
                reply: reply.reply,
                answer,
            },
            claims,
        ),
    }
}

fn claim_found(
    alloc: Global,
    case: &Case,
    ends: Found,
    fds: &Fds,
    claims: &mut Seq<Claim>,
) -> Result<bool, AllocError>
    ensures { IfOk result (λ did. Adds did claims.old claims.new (found_by (is_whole_of case.now) case.now (last_op_of case.now.call (objects ends) case.now.drawn fds.now))) }
{
    if case.is_whole() {
        let last = last_op(alloc, case.call, ends, case.drawn, fds)?;
        return claim_op(alloc, case, last, claims);
    }
    if !case.is_free() {
        return Ok(false);
    }
    claim_unfound(alloc, case, claims)
}

fn claim_once(case: &Case, answer: Answer, claims: &mut Seq<Claim>) -> Result<bool, AllocError>
    ensures { IfOk result (λ did. (fds : Descriptors) → Adds did claims.old claims.new (once_by (Some answer) case.now fds)) }
{
    if !case.is_free() {
        drop(answer);
        return Ok(false);
    }
    claim_said(case, answer, claims)
}

fn claim_sent(
    alloc: Global,
    case: &Case,
    fds: &Fds,
    claims: &mut Seq<Claim>,
) -> Result<bool, AllocError>
    ensures { IfOk result (λ did. Adds did claims.old claims.new (once_by None case.now fds.now)) }
{
    let ends = claim_walk(alloc, case.call, case.places, case.found, claims)?;
    Ok(claim_found(alloc, case, ends, fds, claims)?)
}

/// Makes the claims of a call by which its entries are legal and its reply is lawful. It is false where they are not,
/// whatever the flat file system answers.
///
/// # Errors
/// Out of memory.
#[tactic(auto, using(crate::proofs::Adding::case_sent))]
pub(crate) fn claim_case(
    alloc: Global,
    case: &Case,
    fds: &Fds,
    claims: &mut Seq<Claim>,
) -> Result<bool, AllocError>
    ensures { IfOk result (λ did. Adds did claims.old claims.new (case_claims case.now fds.now)) }
{
    match at_once(fds, case.call) {
        Some(answer) => Ok(claim_once(case, answer, claims)?),
        None => Ok(claim_sent(alloc, case, fds, claims)?),
    }
}
