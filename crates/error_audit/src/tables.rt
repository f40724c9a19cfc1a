//! What is looked up in a log for its I/O errors.
ghost use Rattle.std.specs.Prelude.{map, IfOk, OnOk};
ghost use Rattle.error_audit.specs.IoCauses.{AreTables};
ghost use Rattle.error_audit.specs.Opened.{openings_of as openings_in, AreByBrick};

use crate::clue_notes::clues_of;
use crate::connections::{Opening, by_brick, openings_of};
use crate::evidence::Clues;
use crate::locks::{LockAt, locks_of};
use mount_log::Log;
use mount_log::call_graphs::{CallAt, calls_of, graphs_of};
use script_lang::Script;
use std::alloc::{AllocError, Global};

/// What is looked up in a log: its calls, the volfiles of its graphs, the connections that were opened, the locks of each
/// call, and clues to where the evidence is.
#[derive(Drop)]
pub struct Tables {
    pub calls: Vec<CallAt>,
    pub volfiles: Vec<u8>,
    pub openings: Vec<Vec<Opening>>,
    pub locks: Vec<Vec<LockAt>>,
    pub clues: Clues,
}

impl Tables {
    // Looks everything up.
    fn fill(&mut self, alloc: Global, script: &Script, log: &Log) -> Result<(), AllocError>
        ensures { OnOk result (AreTables script.now log.now self.new) }
    {
        self.calls = calls_of(alloc, log.events.as_slice())?;
        self.volfiles = graphs_of(alloc, script, log)?;
        self.openings = openings_by_brick(alloc, log)?;
        self.locks = locks_of(alloc, log, self.calls.len().saturating_add(1))?;
        self.clues = clues_of(alloc, log)?;
        Ok(())
    }
}

fn openings_by_brick(alloc: Global, log: &Log) -> Result<Vec<Vec<Opening>>, AllocError>
    ensures { IfOk result (λ lists. AreByBrick (openings_in log.now.sent) (map (λ l. l.items) lists.items)) }
{
    let all = openings_of(alloc, log.sent.as_slice())?;
    let lists = by_brick(alloc, all.as_slice())?;
    drop(all);
    Ok(lists)
}

/// What is looked up in a log.
///
/// # Errors
/// Out of memory.
pub fn tables_of(alloc: Global, script: &Script, log: &Log) -> Result<Tables, AllocError>
    ensures { IfOk result (AreTables script.now log.now) }
{
    let mut tables = Tables {
        calls: Vec::new(alloc),
        volfiles: Vec::new(alloc),
        openings: Vec::new(alloc),
        locks: Vec::new(alloc),
        clues: Clues::new(alloc),
    };
    let done = tables.fill(alloc, script, log);
    done.and(Ok(tables))
}
