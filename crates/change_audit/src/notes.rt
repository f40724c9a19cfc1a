//! What is known of a run before its history is gone through.
ghost use Rattle.std.specs.Prelude.{◌≡◌, length, IfOk, IfSome, IfNone};
ghost use Rattle.change_audit.specs.Acknowledged.{AreMarked, AreOfReplies, HasCallFrom};
ghost use Rattle.change_audit.specs.Entries.{AreNotesOf};

use crate::acknowledged::answered_well;
use crate::call_graphs::{CallGraphs, call_graphs};
use crate::candidates::Candidates;
use crate::finding::find;
use crate::placing::{Makers, makers_of};
use brick_machine::Brick;
use fop_types::{FlatOp, Seq};
use mount_log::Log;
use script_lang::Script;
use std::alloc::{AllocError, Global};

/// Which changes bricks are said to bear, and which entries make directories. Nothing is said of them.
#[derive(Drop)]
pub struct Leads {
    pub found: Candidates,
    pub makers: Makers,
}

/// The graphs of the calls of a run, which calls were answered well and by which event, and what may be found of its changes.
#[derive(Drop)]
pub struct Notes {
    pub graphs: CallGraphs,
    pub marks: Seq<Option<u64>>,
    pub leads: Leads,
}

fn leads_of(
    alloc: Global,
    log: &Log,
    bricks: &[Brick],
    ops: &[FlatOp],
    marks: &[Option<u64>],
) -> Result<Leads, AllocError> {
    let found = find(alloc, log, bricks, marks)?;
    match makers_of(alloc, ops) {
        Ok(makers) => Ok(Leads { found, makers }),
        Err(error) => {
            drop(found);
            Err(error)
        }
    }
}

fn with_graphs(
    alloc: Global,
    script: &Script,
    log: &Log,
    marks: Seq<Option<u64>>,
    leads: Leads,
) -> Result<Notes, AllocError>
    requires { AreMarked log.now.replies marks }
    ensures notes { IfOk result (λ notes. AreNotesOf script.now log.now notes) }
    ensures marks { IfOk result (λ notes. notes.marks ≡ marks) }
{
    match call_graphs(alloc, script, log) {
        Ok(graphs) => Ok(Notes {
            graphs,
            marks,
            leads,
        }),
        Err(error) => {
            drop(leads);
            drop(marks);
            Err(error)
        }
    }
}

// The notes of a run, by its marks.
fn notes_by(
    alloc: Global,
    script: &Script,
    log: &Log,
    bricks: &[Brick],
    ops: &[FlatOp],
    marks: Seq<Option<u64>>,
) -> Result<Notes, AllocError>
    requires { AreMarked log.now.replies marks }
    ensures notes { IfOk result (λ notes. AreNotesOf script.now log.now notes) }
    ensures marks { IfOk result (λ notes. notes.marks ≡ marks) }
{
    match leads_of(alloc, log, bricks, ops, marks.as_slice()) {
        Ok(leads) => with_graphs(alloc, script, log, marks, leads),
        Err(error) => {
            drop(marks);
            Err(error)
        }
    }
}

/// The notes of a run; `None` where a reply is to no call that there can be: each call was submitted by an event of its own, so
/// none has a greater number than there are events.
///
/// # Errors
/// Out of memory.
pub(crate) fn notes_of(
    alloc: Global,
    script: &Script,
    log: &Log,
    bricks: &[Brick],
    ops: &[FlatOp],
) -> Result<Option<Notes>, AllocError>
    ensures notes { IfOk result (λ found. IfSome found (λ notes. AreNotesOf script.now log.now notes)) }
    ensures own { IfOk result (λ found. IfSome found (λ notes. AreOfReplies log.now.replies notes.marks)) }
    ensures none { IfOk result (λ found. IfNone found (HasCallFrom log.now.replies (length log.now.events))) }
{
    let bound = log.events.len().saturating_add(1);
    match answered_well(alloc, log.replies.as_slice(), bound)? {
        Some(marks) => {
            let notes = notes_by(alloc, script, log, bricks, ops, marks)?;
            Ok(Some(notes))
        }
        None => Ok(None),
    }
}
