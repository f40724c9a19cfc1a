//! Which connections are due to be opened in an event, and which to end.
ghost use Rattle.std.specs.Prelude.{◌≡◌, ◌-◌, ◌||◌, ◌<◌, true, false, slice_get};
ghost use Rattle.std.specs.List.{list_any};
ghost use Rattle.mount_log.specs.Connects.{has_brick, IsEndIn};
ghost use Rattle.mount_log.specs.Ties.{IsNumberOf};
ghost use Rattle.line_audit.specs.Slots.{AreSlotsLow, slot_limit};
ghost use Rattle.line_audit.specs.Linked.{WindsInOrder, IsFirstOf, until_at, live_as, uses_as, started_as, made_as, opened_for_as, due_as, end_as, IsGoneAs, IsLostAs};

use crate::effects::{Effect, cut_as, is_started, is_switched, opened_as};
use crate::known::Known;
use crate::links::has_link;
use crate::tied_ends::is_number_of;
use crate::tied_replies::wind_at;
use fop_types::SetPlan;
use graph_build::Plan;
use mount_log::call_graphs::plan_of;
use mount_log::{Log, WindLine};

/// An event's number and effect, and the newest graph behind it. The hub's making has the number 0.
#[derive(Clone, Copy)]
pub struct Moment {
    pub number: u64,
    pub newest: u32,
    pub effect: Effect,
}

/// The volfiles of the graphs, graph 1 first, and until which event each graph is used, by its number.
#[derive(Drop)]
pub struct GraphTables {
    pub volfiles: Vec<u8>,
    pub until: Vec<u64>,
}

// ---- the bricks of a graph

fn has_brick(set: &SetPlan, brick: u8) -> bool
    ensures { result ≡ has_brick brick set.now }
{
    set.bricks.as_slice().contains(&brick)
}

fn plan_uses(plan: &Plan, brick: u8) -> bool
    ensures { result ≡ list_any (has_brick brick) plan.now.sets }
{
    for set in plan.sets.as_slice() {
        if has_brick(set, brick) {
            return true;
        }
    }
    false
}

fn volfile_of(volfiles: &[u8], graph: u32) -> Option<u8>
    ensures { result ≡ slice_get volfiles.now (graph - 1) }
{
    if graph == 0 {
        return volfiles.get(0).copied();
    }
    volfiles.get(graph as usize - 1).copied()
}

fn uses(plans: &[Plan], tables: &GraphTables, graph: u32, brick: u8) -> bool
    ensures { result ≡ uses_as plans.now tables.now graph brick }
{
    match plan_of(plans, volfile_of(tables.volfiles.as_slice(), graph)) {
        Some(plan) => plan_uses(plan, brick),
        None => false,
    }
}

// ---- live graphs

fn until_at(until: &[u64], graph: u32) -> u64
    ensures { result ≡ until_at until.now graph }
{
    match until.get(graph as usize) {
        Some(event) => *event,
        None => 0,
    }
}

fn is_live(tables: &GraphTables, newest: u32, graph: u32, number: u64) -> bool
    ensures { result ≡ live_as tables.now.until.items newest graph number }
{
    if graph == newest {
        return true;
    }
    graph > 0 && (graph < newest && number < until_at(tables.until.as_slice(), graph))
}

// ---- a Connect

fn is_started_for(now: Moment, graph: u32) -> bool
    ensures { result ≡ started_as now graph }
{
    is_started(now.effect) && graph == 1
}

fn is_made(known: &Known, now: Moment, graph: u32, brick: u8) -> bool
    ensures { result ≡ made_as known.now now graph brick }
{
    if !is_switched(now.effect) || graph != now.newest {
        return false;
    }
    !known.closed.as_slice().contains(&brick)
}

fn is_opened_for(tables: &GraphTables, known: &Known, now: Moment, graph: u32, brick: u8) -> bool
    ensures { result ≡ opened_for_as tables.now known.now now graph brick }
{
    if !opened_as(now.effect, brick) || !is_live(tables, now.newest, graph, now.number) {
        return false;
    }
    !has_link(known.links.as_slice(), graph, brick)
}

fn is_wanted(tables: &GraphTables, known: &Known, now: Moment, graph: u32, brick: u8) -> bool
    ensures { result ≡ (started_as now graph || (made_as known.now now graph brick || opened_for_as tables.now known.now now graph brick)) }
{
    if is_started_for(now, graph) || is_made(known, now, graph, brick) {
        return true;
    }
    is_opened_for(tables, known, now, graph, brick)
}

/// Whether a graph is to connect to a brick.
pub fn is_due(
    plans: &[Plan],
    tables: &GraphTables,
    known: &Known,
    now: Moment,
    graph: u32,
    brick: u8,
) -> bool
    ensures { result ≡ due_as plans.now tables.now known.now now graph brick }
{
    if !is_wanted(tables, known, now, graph, brick) {
        return false;
    }
    uses(plans, tables, graph, brick)
}

// ---- a Disconnect

// The first place of a line of this event or a later one, where lines are in the order of their events.
fn first_of(winds: &[WindLine], number: u64) -> usize
    ensures { WindsInOrder winds.now → IsFirstOf winds.now number result }
{
    let mut low = 0usize;
    let mut high = winds.len();
    while low < high {
        let middle = low + (high - low) / 2;
        if winds[middle].event < number {
            low = middle + 1;
        } else {
            high = middle;
        }
    }
    low
}

fn is_end(line: &WindLine, wind: u64, graph: u32, number: u64) -> bool
    ensures end { result ≡ true → line.now.opened ≡ false }
    ensures wind { result ≡ true → IsNumberOf line.now.wind wind }
    ensures graph { result ≡ true → line.now.graph ≡ graph }
    ensures event { result ≡ true → line.now.event ≡ number }
    ensures complete { line.now.wind.slot < slot_limit → line.now.opened ≡ false → IsNumberOf line.now.wind wind → line.now.graph ≡ graph → line.now.event ≡ number → result ≡ true }
{
    if line.opened || line.graph != graph || line.event != number {
        return false;
    }
    is_number_of(line.wind, wind)
}

fn ends_at(log: &Log, place: usize, wind: u64, graph: u32, number: u64) -> bool
    ensures sound { result ≡ true → IsEndIn log.now.winds wind graph number }
    ensures complete { AreSlotsLow log.now.winds → (e : IsEndIn log.now.winds wind graph number) → e.place ≡ place → result ≡ true }
{
    match wind_at(log, place) {
        Some(line) => is_end(line, wind, graph, number),
        None => false,
    }
}

// Whether a wind of a graph ends in an event.
fn ends_in(log: &Log, wind: u64, graph: u32, number: u64) -> bool
    ensures sound { result ≡ true → IsEndIn log.now.winds wind graph number }
    ensures complete { AreSlotsLow log.now.winds → WindsInOrder log.now.winds → IsEndIn log.now.winds wind graph number → result ≡ true }
{
    let winds = log.winds.as_slice();
    let from = first_of(winds, number);
    for place in from..winds.len() {
        if winds[place].event > number {
            return false;
        }
        if ends_at(log, place, wind, graph, number) {
            return true;
        }
    }
    false
}

fn is_gone(log: &Log, now: Moment, graph: u32, brick: u8) -> bool
    ensures sound { result ≡ true → IsGoneAs log.now now graph brick now.effect }
    ensures complete { AreSlotsLow log.now.winds → WindsInOrder log.now.winds → IsGoneAs log.now now graph brick now.effect → result ≡ true }
{
    match now.effect {
        Effect::Gone(from, wind) => {
            if from != brick {
                return false;
            }
            ends_in(log, wind, graph, now.number)
        }
        _ => false,
    }
}

// Whether a graph is no longer live behind the event, and uses the brick.
fn has_ended(
    plans: &[Plan],
    tables: &GraphTables,
    known: &Known,
    now: Moment,
    graph: u32,
    brick: u8,
) -> bool
    ensures { result ≡ end_as plans.now tables.now known.now now graph brick }
{
    if !is_live(tables, known.newest, graph, now.number.saturating_sub(1)) {
        return false;
    }
    if is_live(tables, now.newest, graph, now.number) {
        return false;
    }
    uses(plans, tables, graph, brick)
}

/// Whether a graph's connection to a brick is to end: it is cut or gone, or the graph has ended.
pub fn is_lost(
    log: &Log,
    plans: &[Plan],
    tables: &GraphTables,
    known: &Known,
    now: Moment,
    graph: u32,
    brick: u8,
) -> bool
    ensures sound { result ≡ true → IsLostAs log.now plans.now tables.now known.now now graph brick }
    ensures complete { AreSlotsLow log.now.winds → WindsInOrder log.now.winds → IsLostAs log.now plans.now tables.now known.now now graph brick → result ≡ true }
{
    if has_ended(plans, tables, known, now, graph, brick) {
        return true;
    }
    if !has_link(known.links.as_slice(), graph, brick) {
        return false;
    }
    cut_as(now.effect, brick) || is_gone(log, now, graph, brick)
}
