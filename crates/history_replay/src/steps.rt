//! The run of the flat file system that bears claims out.
ghost use Rattle.std.specs.Prelude.{◌≡◌, ◌+◌, ◌++◌, ◌&&◌, [], true, false, None, length, IfOk, IfSome, OnOk};
ghost use Rattle.fop_types.specs.Flat.{flat, flat_answer, flat_after, IsChange};
ghost use Rattle.history_replay.specs.code.Claims.{is_granted as is_granted_of, IsFound, IsReplied, IsRepliedIf};
ghost use Rattle.history_replay.specs.code.Runs.{IsHeldOn, AreHeldOn, IsDone, Passes, PassesBy, Takes, RunsWith, with_op, with_claim, with_change, PutsClaim, PutsChange, Puts, ArePut, Bears};

use crate::claims::Claim;
use crate::copies::copy_op;
use crate::places::{is_change, is_ok};
use crate::same::same_answer;
use crate::trace::Replied;
use flat_fs::FlatFs;
use fop_types::{Answer, FlatAnswer, FlatOp, Gfid, Seq};
use std::alloc::{AllocError, Global};
use std::mem;

/// The change of an entry; its answer is that of a reply, if it has one.
#[derive(Drop)]
pub(crate) struct Change {
    pub op: FlatOp,
    pub reply: Option<usize>,
}

/// What is to hold of the files at a place, and the change that is made there.
#[derive(Drop)]
pub(crate) struct Step {
    pub claims: Seq<Claim>,
    pub change: Option<Change>,
}

/// How a step passes: a claim does not hold, or its change is none; it has no change, and no step may follow; or its change is
/// made.
#[derive(Drop)]
pub(crate) enum Pass {
    Fails,
    Ends,
    GoesOn,
}

impl Step {
    fn add(&mut self, claim: Claim) -> Result<(), AllocError>
        ensures { OnOk result (self.new ≡ with_claim self.old claim) }
    {
        self.claims.push(claim)?;
        Ok(())
    }

    fn is_free(&self) -> bool
        ensures { result ≡ true → self.now.change ≡ None }
    {
        match &self.change {
            Some(_) => false,
            None => true,
        }
    }

    // Takes a change. It is false where it had one.
    fn take(&mut self, change: Change) -> bool
        ensures { result ≡ true → (self.old.change ≡ None) × (self.new ≡ with_change self.old change) }
    {
        let was_free = self.is_free();
        drop(mem::replace(&mut self.change, Some(change)));
        was_free
    }
}

fn add_step(alloc: Global, steps: &mut Vec<Step>) -> Result<(), AllocError>
    ensures { OnOk result (length steps.new.items ≡ length steps.old.items + 1) }
{
    steps.push(Step {
        claims: Seq::new(alloc),
        change: None,
    })?;
    Ok(())
}

// So many places without claims, and one more.
fn empty_steps(alloc: Global, count: usize) -> Result<Vec<Step>, AllocError>
    ensures { IfOk result (λ steps. length steps.items ≡ count + 1) }
{
    let mut steps = Vec::new(alloc);
    for _ in 0..count {
        add_step(alloc, &mut steps)?;
    }
    add_step(alloc, &mut steps)?;
    Ok(steps)
}

// Whether a reply has this answer.
fn is_answer(replies: &[Replied], reply: usize, answer: &Answer) -> bool
    ensures { result ≡ true → IsReplied replies.now reply (FlatAnswer.Call answer.now) }
{
    match replies.get(reply) {
        Some(found) => same_answer(found.answer, answer),
        None => false,
    }
}

fn is_replied(replies: &[Replied], reply: usize, answer: &FlatAnswer) -> bool
    ensures { result ≡ true → IsReplied replies.now reply answer.now }
{
    match answer {
        FlatAnswer::Found { .. } => false,
        FlatAnswer::Call(answer) => is_answer(replies, reply, answer),
    }
}

fn is_found(answer: &FlatAnswer, found: Gfid) -> bool
    ensures { result ≡ true → IsFound found answer.now }
{
    match answer {
        FlatAnswer::Found { gfid, .. } => *gfid == found,
        FlatAnswer::Call(_) => false,
    }
}

// ---- putting claims at their places

fn put_claim(steps: &mut Vec<Step>, place: u32, claim: Claim) -> Result<bool, AllocError>
    ensures puts { IfOk result (λ did. did ≡ true → PutsClaim steps.old.items steps.new.items place claim) }
    ensures count { IfOk result (λ did. length steps.new.items ≡ length steps.old.items) }
{
    let index = place as usize;
    if index >= steps.len() {
        drop(claim);
        return Ok(false);
    }
    steps[index].add(claim)?;
    Ok(true)
}

fn put_change(steps: &mut Vec<Step>, index: u32, change: Change) -> bool
    ensures puts { result ≡ true → PutsChange steps.old.items steps.new.items index change }
    ensures count { length steps.new.items ≡ length steps.old.items }
{
    let index = index as usize;
    if index >= steps.len() {
        drop(change);
        return false;
    }
    steps[index].take(change)
}

// The place of a claim about the files at a place.
fn place_of(claim: &Claim) -> Option<u32> {
    match claim {
        Claim::Finds { place, .. } => Some(*place),
        Claim::Answers { place, .. } => Some(*place),
        Claim::Accepts { place, .. } => Some(*place),
        _ => None,
    }
}

fn is_said(replies: &[Replied], reply: usize, answer: Answer) -> bool
    ensures { result ≡ true → IsReplied replies.now reply (FlatAnswer.Call answer) }
{
    let said = is_answer(replies, reply, &answer);
    drop(answer);
    said
}

// Puts a claim of a reply or of an entry.
#[tactic(auto, using(crate::proofs::Running::puts_said))]
fn put_other(replies: &[Replied], steps: &mut Vec<Step>, claim: Claim) -> bool
    ensures puts { result ≡ true → Puts replies.now steps.old.items steps.new.items claim }
    ensures count { length steps.new.items ≡ length steps.old.items }
{
    match claim {
        Claim::Says { reply, answer } => is_said(replies, reply, answer),
        Claim::Enters { index, op, reply } => put_change(steps, index, Change { op, reply }),
        other => {
            drop(other);
            false
        }
    }
}

// Puts a claim at its place.
fn put(replies: &[Replied], steps: &mut Vec<Step>, claim: Claim) -> Result<bool, AllocError>
    ensures puts { IfOk result (λ did. did ≡ true → Puts replies.now steps.old.items steps.new.items claim) }
    ensures count { IfOk result (λ did. length steps.new.items ≡ length steps.old.items) }
{
    match place_of(&claim) {
        Some(place) => Ok(put_claim(steps, place, claim)?),
        None => Ok(put_other(replies, steps, claim)),
    }
}

// ---- the run

// Whether nothing was made with an answer, and it is that of a reply.
fn is_kept(changes: bool, replies: &[Replied], reply: usize, answer: &FlatAnswer) -> bool
    ensures keeps { result ≡ true → (changes && is_granted_of answer.now) ≡ false }
    ensures replied { result ≡ true → IsReplied replies.now reply answer.now }
{
    if changes && is_granted(answer) {
        return false;
    }
    is_replied(replies, reply, answer)
}

// Whether an operation has the answer of a reply. It is none that would be made.
#[tactic(auto, using(crate::proofs::Outcomes::kept))]
fn answers(
    alloc: Global,
    files: &mut FlatFs,
    is_here: bool,
    replies: &[Replied],
    op: FlatOp,
    reply: usize,
) -> Result<bool, AllocError>
    ensures here { IfOk result (λ did. did ≡ true → is_here ≡ true) }
    ensures answer { IfOk result (λ did. did ≡ true → IsReplied replies.now reply (flat_answer files.old op)) }
    ensures files { IfOk result (λ did. did ≡ true → files.new ≡ files.old) }
{
    let changes = is_change(&op);
    let answer = files.apply(alloc, op);
    let found = match &answer {
        Ok(answer) => Ok(is_here && is_kept(changes, replies, reply, answer)),
        Err(_) => Err(AllocError),
    };
    drop(answer);
    found
}

fn is_granted(answer: &FlatAnswer) -> bool
    ensures { result ≡ is_granted_of answer.now }
{
    match answer {
        FlatAnswer::Found { .. } => true,
        FlatAnswer::Call(answer) => is_ok(answer),
    }
}

#[tactic(auto, using(crate::proofs::Outcomes::lookup_keeps))]
fn finds(
    alloc: Global,
    files: &mut FlatFs,
    is_here: bool,
    parent: Gfid,
    name: Seq<u8>,
    found: Gfid,
) -> Result<bool, AllocError>
    ensures here { IfOk result (λ did. did ≡ true → is_here ≡ true) }
    ensures answer { IfOk result (λ did. did ≡ true → IsFound found (flat_answer files.old (FlatOp.Lookup parent name))) }
    ensures files { OnOk result (files.new ≡ files.old) }
{
    let answer = files.apply(alloc, FlatOp::Lookup { parent, name });
    let finds = match &answer {
        Ok(answer) => Ok(is_here && is_found(answer, found)),
        Err(_) => Err(AllocError),
    };
    drop(answer);
    finds
}

// Whether a rename would be made. No other operation is asked for.
#[tactic(auto, using(crate::proofs::Outcomes::accepted_is))]
fn would_make(files: &FlatFs, op: &FlatOp) -> bool
    ensures { result ≡ true → IsChange (flat files.now op.now) }
{
    match op {
        FlatOp::Rename {
            parent,
            name,
            target,
            new_name,
        } => files.accepts_rename(*parent, name.as_slice(), *target, new_name.as_slice()),
        _ => false,
    }
}

fn accepts(files: &FlatFs, is_here: bool, op: FlatOp) -> bool
    ensures here { result ≡ true → is_here ≡ true }
    ensures change { result ≡ true → IsChange (flat files.now op) }
{
    let accepts = is_here && would_make(files, &op);
    drop(op);
    accepts
}

// Whether a claim holds on the files at this place.
fn holds(
    alloc: Global,
    files: &mut FlatFs,
    at: usize,
    replies: &[Replied],
    claim: Claim,
) -> Result<bool, AllocError>
    ensures held { IfOk result (λ did. did ≡ true → IsHeldOn files.old at replies.now claim) }
    ensures files { IfOk result (λ did. did ≡ true → files.new ≡ files.old) }
{
    match claim {
        Claim::Finds {
            place,
            parent,
            name,
            found,
        } => finds(alloc, files, place as usize == at, parent, name, found),
        Claim::Answers { place, op, reply } => {
            answers(alloc, files, place as usize == at, replies, op, reply)
        }
        Claim::Accepts { place, op } => Ok(accepts(files, place as usize == at, op)),
        other => {
            drop(other);
            Ok(false)
        }
    }
}

// Whether all claims hold on the files at this place.
#[tactic(auto, using(crate::proofs::Running::holds_next))]
fn all_hold(
    alloc: Global,
    files: &mut FlatFs,
    at: usize,
    replies: &[Replied],
    claims: Seq<Claim>,
) -> Result<bool, AllocError>
    ensures held { IfOk result (λ did. did ≡ true → AreHeldOn files.old at replies.now claims) }
    ensures files { IfOk result (λ did. did ≡ true → files.new ≡ files.old) }
{
    for claim in claims.into_vec() {
        if !holds(alloc, files, at, replies, claim)? {
            return Ok(false);
        }
    }
    Ok(true)
}

// Whether a change was made with an answer, and it is that of the reply, if there is one.
fn is_made(changes: bool, replies: &[Replied], reply: Option<usize>, answer: &FlatAnswer) -> bool
    ensures changes { result ≡ true → (changes && is_granted_of answer.now) ≡ true }
    ensures replied { result ≡ true → IsRepliedIf replies.now reply answer.now }
{
    if !changes || !is_granted(answer) {
        return false;
    }
    match reply {
        None => true,
        Some(reply) => is_replied(replies, reply, answer),
    }
}

// Makes the change of an entry. It is false where it is none, or has another answer than the reply's.
#[tactic(auto, using(crate::proofs::Outcomes::changed))]
fn make(
    alloc: Global,
    files: &mut FlatFs,
    replies: &[Replied],
    change: Change,
) -> Result<bool, AllocError>
    ensures done { IfOk result (λ did. did ≡ true → IsDone files.old replies.now change) }
    ensures files { OnOk result (files.new ≡ flat_after files.old change.op) }
{
    let changes = is_change(&change.op);
    let reply = change.reply;
    let answer = files.apply(alloc, change.op);
    let made = match &answer {
        Ok(answer) => Ok(is_made(changes, replies, reply, answer)),
        Err(_) => Err(AllocError),
    };
    drop(answer);
    made
}

// Makes the change of a step whose claims hold.
#[tactic(auto, using(crate::proofs::Running::passes_made))]
fn make_pass(
    alloc: Global,
    files: &mut FlatFs,
    replies: &[Replied],
    change: Option<Change>,
) -> Result<Pass, AllocError>
    ensures { IfOk result (λ pass. PassesBy pass files.old files.new replies.now change) }
{
    match change {
        None => Ok(Pass::Ends),
        Some(change) => {
            if make(alloc, files, replies, change)? {
                Ok(Pass::GoesOn)
            } else {
                Ok(Pass::Fails)
            }
        }
    }
}

// Whether a step holds at its place, and its change is made.
#[tactic(auto, using(crate::proofs::Running::passes_by))]
fn take_step(
    alloc: Global,
    files: &mut FlatFs,
    at: usize,
    replies: &[Replied],
    step: Step,
) -> Result<Pass, AllocError>
    ensures { IfOk result (λ pass. Passes pass files.old files.new at replies.now step) }
{
    let Step { claims, change } = step;
    match all_hold(alloc, files, at, replies, claims) {
        Ok(true) => Ok(make_pass(alloc, files, replies, change)?),
        Ok(false) => {
            drop(change);
            Ok(Pass::Fails)
        }
        Err(_) => {
            drop(change);
            Err(AllocError)
        }
    }
}

// Notes the operation of a step's entry, if it has one.
fn note(alloc: Global, ops: &mut Seq<FlatOp>, change: &Option<Change>) -> Result<(), AllocError>
    ensures { OnOk result (ops.new ≡ ops.old ++ with_op change.now []) }
{
    match change {
        None => Ok(()),
        Some(change) => {
            let op = copy_op(alloc, &change.op)?;
            ops.push(op)?;
            Ok(())
        }
    }
}

// A run of the steps: the files, the next place, the operations of the entries, and whether the last step was taken.
#[derive(Drop)]
struct Run {
    files: FlatFs,
    at: usize,
    ops: Seq<FlatOp>,
    ended: bool,
}

impl Run {
    // Takes one step more. It is false where the step does not hold, or no step may follow.
    fn take(&mut self, alloc: Global, replies: &[Replied], step: Step) -> Result<bool, AllocError>
        ensures { IfOk result (λ did. did ≡ true → Takes self.old self.new replies.now step) }
    {
        if self.ended {
            drop(step);
            return Ok(false);
        }
        let noted = note(alloc, &mut self.ops, &step.change);
        let passed = take_step(alloc, &mut self.files, self.at, replies, step);
        noted?;
        match passed? {
            Pass::Fails => Ok(false),
            Pass::Ends => {
                self.ended = true;
                Ok(true)
            }
            Pass::GoesOn => {
                let Some(at) = self.at.checked_add(1) else {
                    return Err(AllocError);
                };
                self.at = at;
                Ok(true)
            }
        }
    }
}

// The operations of the steps' entries, where the steps hold one after another, from the first files on.
#[tactic(auto, using(crate::proofs::Taking::begins, crate::proofs::Taking::is_run))]
fn run_all(
    alloc: Global,
    replies: &[Replied],
    steps: Vec<Step>,
) -> Result<Option<Seq<FlatOp>>, AllocError>
    ensures { IfOk result (λ o. IfSome o (λ ops. RunsWith replies.now steps.items ops)) }
{
    let mut run = Run {
        files: FlatFs::new(alloc)?,
        at: 0,
        ops: Seq::new(alloc),
        ended: false,
    };
    for step in steps {
        if !run.take(alloc, replies, step)? {
            return Ok(None);
        }
    }
    if !run.ended {
        return Ok(None);
    }
    Ok(Some(run.ops))
}

// All claims at their places, `None` where one has none.
#[tactic(auto, using(crate::proofs::Running::put_none))]
fn put_all(
    alloc: Global,
    replies: &[Replied],
    entries: usize,
    claims: Seq<Claim>,
) -> Result<Option<Vec<Step>>, AllocError>
    ensures { IfOk result (λ o. IfSome o (λ steps. ArePut replies.now entries claims steps.items)) }
{
    let mut steps = empty_steps(alloc, entries)?;
    for claim in claims.into_vec() {
        if !put(replies, &mut steps, claim)? {
            return Ok(None);
        }
    }
    Ok(Some(steps))
}

/// The operations with which claims hold, one for each of so many entries; `None` where a claim does not hold.
///
/// # Errors
/// Out of memory.
pub(crate) fn hold(
    alloc: Global,
    replies: &[Replied],
    entries: usize,
    claims: Seq<Claim>,
) -> Result<Option<Seq<FlatOp>>, AllocError>
    ensures { IfOk result (λ o. IfSome o (λ ops. Bears replies.now entries claims ops)) }
{
    match put_all(alloc, replies, entries, claims)? {
        None => Ok(None),
        Some(steps) => {
            let ops = run_all(alloc, replies, steps)?;
            Ok(ops)
        }
    }
}
