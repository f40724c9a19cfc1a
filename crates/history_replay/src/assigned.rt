//! The lines of a report's calls, by their numbers.
use crate::lines::{Named, is_call_of};
use crate::turns::Turns;
use report_text::ReportCall;
use script_lang::{CallLine, Script};
use std::alloc::{AllocError, Global};
use std::collections::BTreeMap;

// A call of a script: its place in the order of the text, its line, and its phase.
#[derive(Drop)]
struct Placed<'a> {
    place: usize,
    line: &'a CallLine,
    phase: usize,
}

// All calls of a script, in the order of its text; and their places by their numbers.
#[derive(Drop)]
struct Lines<'a> {
    calls: Vec<Placed<'a>>,
    by_number: BTreeMap<u32, usize>,
}

impl<'a> Lines<'a> {
    fn new(alloc: Global) -> Lines<'a> {
        Lines {
            calls: Vec::new(alloc),
            by_number: BTreeMap::new(alloc),
        }
    }

    fn add(&mut self, line: &'a CallLine, phase: usize) -> Result<(), AllocError> {
        let place = self.calls.len();
        self.by_number.insert(line.line, place)?;
        self.calls.push(Placed { place, line, phase })?;
        Ok(())
    }

    fn add_all(&mut self, script: &'a Script) -> Result<(), AllocError> {
        let phases = script.phases.as_slice();
        for phase in 0..phases.len() {
            for line in phases[phase].calls.as_slice() {
                self.add(line, phase)?;
            }
        }
        Ok(())
    }

    // The call of a number.
    fn find(&self, number: u32) -> Option<&Placed<'a>> {
        match self.by_number.get(&number) {
            Some(place) => self.calls.get(*place),
            None => None,
        }
    }
}

// The line of a call that was found, and the idle one where none was.
fn line_or<'a>(found: Option<&Placed<'a>>, idle: &'a CallLine) -> &'a CallLine {
    match found {
        Some(placed) => placed.line,
        None => idle,
    }
}

// The order of calls: each is the next one of its session, and none is of a phase before one that came.
#[derive(Drop)]
struct Order {
    sessions: Vec<Turns>,
    phase: usize,
}

impl Order {
    fn new(alloc: Global) -> Order {
        Order {
            sessions: Vec::new(alloc),
            phase: 0,
        }
    }

    fn add_sessions(&mut self, alloc: Global) -> Result<(), AllocError> {
        for _ in 0..256usize {
            self.sessions.push(Turns::new(alloc))?;
        }
        Ok(())
    }

    fn add_call(&mut self, session: usize, place: usize) -> Result<(), AllocError> {
        match self.sessions.get_mut(session) {
            Some(turns) => turns.add(place),
            None => Ok(()),
        }
    }

    fn add_calls(&mut self, calls: &[Placed]) -> Result<(), AllocError> {
        for placed in calls {
            self.add_call(placed.line.session as usize, placed.place)?;
        }
        Ok(())
    }

    // Whether the call at this place is the next one of its session, which is passed.
    fn passes(&mut self, session: usize, place: usize) -> bool {
        match self.sessions.get_mut(session) {
            Some(turns) => turns.passes(place),
            None => false,
        }
    }

    // Whether a phase is none before one that came.
    fn reaches(&mut self, phase: usize) -> bool {
        let in_phase = phase >= self.phase;
        self.phase = self.phase.max(phase);
        in_phase
    }

    // Whether a call comes in its turn.
    fn takes(&mut self, placed: &Placed) -> bool {
        let in_phase = self.reaches(placed.phase);
        self.passes(placed.line.session as usize, placed.place) && in_phase
    }

    // Takes the call that was found as the next of its session: false where it isn't its turn, or isn't the report's.
    fn fits(
        &mut self,
        script: &Script,
        found: Option<&Placed>,
        number: usize,
        call: &ReportCall,
    ) -> bool {
        match found {
            Some(placed) => self.takes(placed) && is_call_of(script, number, placed.line, call),
            None => false,
        }
    }
}

/// The lines of a report's calls, by their numbers, and an idle one where no call has the number; and the number of the first
/// call that is not the next of its session or phase, or the number behind the last one where calls are missing.
#[derive(Drop)]
pub(crate) struct Assigned<'a> {
    pub lines: Vec<Named<'a>>,
    pub fails: Option<usize>,
}

impl<'a> Assigned<'a> {
    // Keeps the number of a call that fails, unless one before it does.
    fn fail(&mut self, number: usize) {
        if self.fails.is_none() {
            self.fails = Some(number);
        }
    }

    // Finds the line of a call.
    fn add(
        &mut self,
        script: &Script,
        lines: &Lines<'a>,
        order: &mut Order,
        number: usize,
        call: &ReportCall,
        idle: &'a CallLine,
    ) -> Result<(), AllocError> {
        let found = lines.find(call.line);
        if !order.fits(script, found, number, call) {
            self.fail(number);
        }
        self.lines.push(Named {
            line: line_or(found, idle),
        })?;
        Ok(())
    }

    fn add_all(
        &mut self,
        script: &Script,
        lines: &Lines<'a>,
        order: &mut Order,
        calls: &[ReportCall],
        idle: &'a CallLine,
    ) -> Result<(), AllocError> {
        for at in 0..calls.len() {
            self.add(script, lines, order, at + 1, &calls[at], idle)?;
        }
        if calls.len() < lines.calls.len() {
            self.fail(calls.len().saturating_add(1));
        }
        Ok(())
    }

    fn fill_in_order(
        &mut self,
        alloc: Global,
        script: &Script,
        calls: &[ReportCall],
        idle: &'a CallLine,
        lines: &Lines<'a>,
        order: &mut Order,
    ) -> Result<(), AllocError> {
        order.add_sessions(alloc)?;
        order.add_calls(lines.calls.as_slice())?;
        self.add_all(script, lines, order, calls, idle)
    }

    fn fill_from(
        &mut self,
        alloc: Global,
        script: &'a Script,
        calls: &[ReportCall],
        idle: &'a CallLine,
        lines: &mut Lines<'a>,
    ) -> Result<(), AllocError> {
        lines.add_all(script)?;
        let mut order = Order::new(alloc);
        let done = self.fill_in_order(alloc, script, calls, idle, lines, &mut order);
        drop(order);
        done
    }

    fn fill(
        &mut self,
        alloc: Global,
        script: &'a Script,
        calls: &[ReportCall],
        idle: &'a CallLine,
    ) -> Result<(), AllocError> {
        let mut lines = Lines::new(alloc);
        let done = self.fill_from(alloc, script, calls, idle, &mut lines);
        drop(lines);
        done
    }
}

/// Finds the line of each call by its number.
///
/// # Errors
/// Out of memory.
pub(crate) fn assign<'a>(
    alloc: Global,
    script: &'a Script,
    calls: &[ReportCall],
    idle: &'a CallLine,
) -> Result<Assigned<'a>, AllocError> {
    let mut assigned = Assigned {
        lines: Vec::new(alloc),
        fails: None,
    };
    let done = assigned.fill(alloc, script, calls, idle);
    done.and(Ok(assigned))
}
