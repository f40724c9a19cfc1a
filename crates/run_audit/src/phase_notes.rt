//! Notes of the phase in which an event is: its controls, and the requests that were sent.

use crate::run_notes::{Carried, ControlAt};
use fop_types::Proc;
use mount_log::SentLine;
use mount_log::requests::request_proc;
use script_lang::{ControlLine, Script, When};
use std::alloc::{AllocError, Global};
use std::collections::{BTreeMap, BTreeSet};
use std::mem;

/// A control by the request that it names, and by its place in the phase.
#[derive(Clone, Copy, PartialEq, Eq, PartialOrd, Ord)]
pub struct ControlFor {
    pub brick: u8,
    pub proc: u8,
    pub count: u32,
    pub at: usize,
}

/// The phase in which an event is: how its controls were carried out so far, and how many are left; the next control without a
/// condition and the next one to be armed; those with a condition that are left; those that are armed, and those that wait for
/// a request; those whose request has come, with its place; and how many requests of each procedure were sent to each brick.
/// `calls` is how many calls the script has up to the phase; `by_line` has the control that each line so far carries out.
#[derive(Drop)]
pub struct InPhase {
    pub phase: usize,
    calls: usize,
    carried: Vec<Carried>,
    left: usize,
    plain: usize,
    unarmed: usize,
    waiting: BTreeSet<usize>,
    armed: BTreeSet<ControlFor>,
    awaited: BTreeSet<ControlFor>,
    come: BTreeMap<usize, usize>,
    counts: BTreeMap<(u8, u8), u32>,
    by_line: Vec<ControlAt>,
}

const NOT_CARRIED: Carried = Carried {
    armed: 0,
    event: 0,
    sent: None,
    request: None,
};

/// The first control of a script, where none is meant.
pub const NO_CONTROL: ControlAt = ControlAt { phase: 0, at: 0 };

fn named(brick: u8, proc: Proc, count: u32, at: usize) -> ControlFor {
    ControlFor {
        brick,
        proc: proc as u8,
        count,
        at,
    }
}

// The first control that names the request, from a place in the phase on.
fn first_named(controls: &BTreeSet<ControlFor>, from: ControlFor) -> Option<ControlFor> {
    match controls.range(from..).next() {
        Some(found) => {
            if found.brick == from.brick && found.proc == from.proc && found.count == from.count {
                Some(*found)
            } else {
                None
            }
        }
        None => None,
    }
}

// The controls that name a request, which are taken out.
fn take_named(
    alloc: Global,
    controls: &mut BTreeSet<ControlFor>,
    from: ControlFor,
) -> Result<Vec<usize>, AllocError> {
    let mut taken = Vec::new(alloc);
    for _ in 0..controls.len() {
        let Some(found) = first_named(controls, from) else {
            return Ok(taken);
        };
        controls.remove(&found);
        taken.push(found.at)?;
    }
    Ok(taken)
}

// ---- the controls of a phase

fn controls_of(script: &Script, phase: usize) -> &[ControlLine] {
    match script.phases.as_slice().get(phase) {
        Some(phase) => phase.controls.as_slice(),
        None => &[],
    }
}

fn calls_in(script: &Script, phase: usize) -> usize {
    match script.phases.as_slice().get(phase) {
        Some(phase) => phase.calls.len(),
        None => 0,
    }
}

fn is_plain(control: &ControlLine) -> bool {
    match control.when {
        When::Now => true,
        _ => false,
    }
}

fn is_before(control: &ControlLine) -> bool {
    match control.when {
        When::Before(_, _, _) => true,
        _ => false,
    }
}

// The place of the first control without a condition from a place on, the number of controls where there is none.
fn plain_from(controls: &[ControlLine], from: usize) -> usize {
    for at in from..controls.len() {
        if is_plain(&controls[at]) {
            return at;
        }
    }
    controls.len()
}

// The place of the first control before a request from a place on, the number of controls where there is none.
fn before_from(controls: &[ControlLine], from: usize) -> usize {
    for at in from..controls.len() {
        if is_before(&controls[at]) {
            return at;
        }
    }
    controls.len()
}

impl InPhase {
    pub(crate) fn new(alloc: Global) -> InPhase {
        InPhase {
            phase: 0,
            calls: 0,
            carried: Vec::new(alloc),
            left: 0,
            plain: 0,
            unarmed: 0,
            waiting: BTreeSet::new(alloc),
            armed: BTreeSet::new(alloc),
            awaited: BTreeSet::new(alloc),
            come: BTreeMap::new(alloc),
            counts: BTreeMap::new(alloc),
            by_line: Vec::new(alloc),
        }
    }

    fn add(&mut self, at: usize, control: &ControlLine) -> Result<(), AllocError> {
        self.carried.push(NOT_CARRIED)?;
        match control.when {
            When::Now => Ok(()),
            When::Before(_, _, _) => {
                self.waiting.insert(at)?;
                Ok(())
            }
            When::After(brick, proc, count) => {
                self.waiting.insert(at)?;
                self.awaited.insert(named(brick, proc, count, at))?;
                Ok(())
            }
        }
    }

    // No control waits, and no request was sent.
    fn clear(&mut self, alloc: Global) {
        drop(mem::replace(&mut self.waiting, BTreeSet::new(alloc)));
        drop(mem::replace(&mut self.armed, BTreeSet::new(alloc)));
        drop(mem::replace(&mut self.awaited, BTreeSet::new(alloc)));
        drop(mem::replace(&mut self.come, BTreeMap::new(alloc)));
        drop(mem::replace(&mut self.counts, BTreeMap::new(alloc)));
    }

    /// The phase begins.
    ///
    /// # Errors
    /// Out of memory.
    pub(crate) fn begin(&mut self, alloc: Global, script: &Script) -> Result<(), AllocError> {
        self.clear(alloc);
        let controls = controls_of(script, self.phase);
        self.calls = self.calls.saturating_add(calls_in(script, self.phase));
        self.left = controls.len();
        self.plain = plain_from(controls, 0);
        self.unarmed = before_from(controls, 0);
        for at in 0..controls.len() {
            self.add(at, &controls[at])?;
        }
        Ok(())
    }

    /// The next phase is the current one; how the controls of the one before were carried out is handed over.
    pub(crate) fn leave(&mut self, alloc: Global) -> Vec<Carried> {
        self.phase = self.phase.saturating_add(1);
        mem::replace(&mut self.carried, Vec::new(alloc))
    }

    /// The control that each line carries out.
    pub(crate) fn take_lines(&mut self, alloc: Global) -> Vec<ControlAt> {
        mem::replace(&mut self.by_line, Vec::new(alloc))
    }

    /// Whether the phase has nothing left, where so many replies were given.
    pub(crate) fn is_done(&self, replied: usize) -> bool {
        self.left == 0 && replied >= self.calls
    }

    // A control is carried out in an event: before its request by the line at a place, or as its request, at a place, has come.
    fn carry(&mut self, at: usize, number: u64, sent: Option<usize>, request: Option<usize>) {
        self.left = self.left.saturating_sub(1);
        self.waiting.remove(&at);
        self.come.remove(&at);
        if let Some(carried) = self.carried.get_mut(at) {
            carried.event = number;
            carried.sent = sent;
            carried.request = request;
        }
    }

    fn note_armed(&mut self, at: usize, number: u64) {
        if let Some(carried) = self.carried.get_mut(at) {
            carried.armed = number;
        }
    }

    fn first_come(&self) -> Option<(usize, usize)> {
        match self.come.first_key_value() {
            Some((at, place)) => Some((*at, *place)),
            None => None,
        }
    }

    fn first_left(&self) -> Option<usize> {
        match self.waiting.range(0..).next() {
            Some(at) => Some(*at),
            None => None,
        }
    }

    // A control that is carried out by an event waits for its request no more.
    fn forget(&mut self, controls: &[ControlLine], at: usize) {
        let Some(control) = controls.get(at) else {
            return;
        };
        match control.when {
            When::Now => {}
            When::Before(brick, proc, count) => {
                self.armed.remove(&named(brick, proc, count, at));
            }
            When::After(brick, proc, count) => {
                self.awaited.remove(&named(brick, proc, count, at));
            }
        }
    }

    // The first control whose request has come; else the next one without a condition; else the first one that is left.
    fn take(&mut self, controls: &[ControlLine], number: u64) -> Option<usize> {
        if let Some((at, place)) = self.first_come() {
            self.carry(at, number, None, Some(place));
            return Some(at);
        }
        let at = self.plain;
        if at < controls.len() {
            self.plain = plain_from(controls, at.saturating_add(1));
            self.carry(at, number, None, None);
            return Some(at);
        }
        let at = self.first_left()?;
        self.forget(controls, at);
        self.carry(at, number, None, None);
        Some(at)
    }

    /// An action is carried out in an event: which control it is.
    pub(crate) fn act(&mut self, script: &Script, number: u64) -> ControlAt {
        let phase = self.phase;
        match self.take(controls_of(script, phase), number) {
            Some(at) => ControlAt { phase, at },
            None => NO_CONTROL,
        }
    }

    /// The next control that is to be armed is armed.
    ///
    /// # Errors
    /// Out of memory.
    pub(crate) fn arm(&mut self, script: &Script, number: u64) -> Result<ControlAt, AllocError> {
        let phase = self.phase;
        let at = self.unarmed;
        let controls = controls_of(script, phase);
        let Some(control) = controls.get(at) else {
            return Ok(NO_CONTROL);
        };
        self.unarmed = before_from(controls, at.saturating_add(1));
        if let When::Before(brick, proc, count) = control.when {
            self.armed.insert(named(brick, proc, count, at))?;
        }
        self.note_armed(at, number);
        Ok(ControlAt { phase, at })
    }

    // ---- requests

    // Counts a request, and gives which one it is.
    fn count(&mut self, brick: u8, proc: Proc) -> Result<u32, AllocError> {
        let key = (brick, proc as u8);
        let before = match self.counts.get(&key) {
            Some(count) => *count,
            None => 0,
        };
        let count = before.saturating_add(1);
        self.counts.insert(key, count)?;
        Ok(count)
    }

    fn carry_armed(&mut self, at: usize, number: u64, sent: usize) {
        self.carry(at, number, Some(sent), None);
        let phase = self.phase;
        if let Some(control) = self.by_line.get_mut(sent) {
            *control = ControlAt { phase, at };
        }
    }

    // What was armed for a request was sent at the places before.
    fn armed_for(
        &mut self,
        alloc: Global,
        from: ControlFor,
        number: u64,
        place: usize,
    ) -> Result<(), AllocError> {
        let taken = take_named(alloc, &mut self.armed, from)?;
        let first = place.saturating_sub(taken.len());
        for k in 0..taken.len() {
            self.carry_armed(taken[k], number, first.saturating_add(k));
        }
        Ok(())
    }

    // The controls that wait for a request have come.
    fn come_for(
        &mut self,
        alloc: Global,
        from: ControlFor,
        place: usize,
    ) -> Result<(), AllocError> {
        for at in take_named(alloc, &mut self.awaited, from)? {
            self.come.insert(at, place)?;
        }
        Ok(())
    }

    fn request(
        &mut self,
        alloc: Global,
        line: &SentLine,
        proc: Proc,
        place: usize,
    ) -> Result<(), AllocError> {
        let count = self.count(line.brick, proc)?;
        let from = named(line.brick, proc, count, 0);
        self.armed_for(alloc, from, line.event, place)?;
        self.come_for(alloc, from, place)
    }

    /// A line was sent at a place.
    ///
    /// # Errors
    /// Out of memory.
    pub(crate) fn sent(
        &mut self,
        alloc: Global,
        line: &SentLine,
        place: usize,
    ) -> Result<(), AllocError> {
        self.by_line.push(NO_CONTROL)?;
        match request_proc(line.bytes.as_slice()) {
            Some(proc) => self.request(alloc, line, proc, place),
            None => Ok(()),
        }
    }
}
