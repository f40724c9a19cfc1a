//! Whether what an event sends to connect and disconnect is what is due in it.
ghost use Rattle.std.specs.Prelude.{◌≡◌, ◌<◌, ◌≤◌, ◌||◌, ◌↔◌, ℕ, IsTrue, true};
ghost use Rattle.std.specs.List.{AllByRecursion};
ghost use Rattle.line_audit.specs.declared.effects.Effect.TheVariants.{Started};
ghost use Rattle.line_audit.specs.Slots.{AreSlotsLow};
ghost use Rattle.line_audit.specs.Linked.{WindsInOrder, IsDueAs, IsItemDue, IsDueOnce, AreCut, HasDue, IsLinkedAs, due_as, has_link, has_connect};

use crate::due::{GraphTables, Moment, is_due, is_lost};
use crate::effects::Effect;
use crate::known::Known;
use crate::lines_sent::{Item, What, count_connects, has_connect};
use crate::links::{all_cut, has_link};
use graph_build::Plan;
use mount_log::Log;

// ---- what is sent is due

fn has_connection(known: &Known, items: &[Item], graph: u32, brick: u8) -> bool
    ensures { result ≡ (has_link graph brick known.now.links.items || has_connect graph brick items.now) }
{
    has_link(known.links.as_slice(), graph, brick) || has_connect(items, graph, brick)
}

// Whether a Connect is due, and is the only one of its kind.
fn is_due_once(
    plans: &[Plan],
    tables: &GraphTables,
    known: &Known,
    now: Moment,
    items: &[Item],
    graph: u32,
    brick: u8,
) -> bool
    ensures { IsTrue result ↔ IsDueOnce plans.now tables.now known.now now items.now graph brick }
{
    if count_connects(items, graph, brick) > 1 {
        return false;
    }
    is_due(plans, tables, known, now, graph, brick)
}

fn is_item_due(
    log: &Log,
    plans: &[Plan],
    tables: &GraphTables,
    known: &Known,
    now: Moment,
    items: &[Item],
    brick: u8,
    what: What,
) -> bool
    ensures sound { result ≡ true → IsDueAs log.now plans.now tables.now known.now now items.now brick what }
    ensures complete { AreSlotsLow log.now.winds → WindsInOrder log.now.winds → IsDueAs log.now plans.now tables.now known.now now items.now brick what → result ≡ true }
{
    match what {
        What::Connect(graph) => is_due_once(plans, tables, known, now, items, graph, brick),
        What::Disconnect(graph) => is_lost(log, plans, tables, known, now, graph, brick),
        What::Request(graph) => has_connection(known, items, graph, brick),
        What::Other => true,
        What::Wrong => false,
    }
}

fn are_due(
    log: &Log,
    plans: &[Plan],
    tables: &GraphTables,
    known: &Known,
    now: Moment,
    items: &[Item],
) -> bool
    ensures sound { result ≡ true → AllByRecursion (IsItemDue log.now plans.now tables.now known.now now items.now) items.now }
    ensures complete { AreSlotsLow log.now.winds → WindsInOrder log.now.winds → AllByRecursion (IsItemDue log.now plans.now tables.now known.now now items.now) items.now → result ≡ true }
{
    for item in items {
        if !is_item_due(log, plans, tables, known, now, items, item.brick, item.what) {
            return false;
        }
    }
    true
}

// ---- what is due is sent

fn is_met(
    plans: &[Plan],
    tables: &GraphTables,
    known: &Known,
    now: Moment,
    items: &[Item],
    graph: u32,
    brick: u8,
) -> bool
    ensures { IsTrue result ↔ (due_as plans.now tables.now known.now now graph brick ≡ true → has_connect graph brick items.now ≡ true) }
{
    if !is_due(plans, tables, known, now, graph, brick) {
        return true;
    }
    has_connect(items, graph, brick)
}

// The newest graph connects to each brick that it is to.
fn newest_is_met(
    plans: &[Plan],
    tables: &GraphTables,
    known: &Known,
    now: Moment,
    items: &[Item],
) -> bool
    ensures { IsTrue result ↔ ((brick : ℕ) → brick < 256 → due_as plans.now tables.now known.now now now.newest brick ≡ true → has_connect now.newest brick items.now ≡ true) }
{
    for brick in 0..255u8 {
        if !is_met(plans, tables, known, now, items, now.newest, brick) {
            return false;
        }
    }
    is_met(plans, tables, known, now, items, now.newest, 255)
}

// Each graph connects to a brick to which it is to.
fn opened_is_met(
    plans: &[Plan],
    tables: &GraphTables,
    known: &Known,
    now: Moment,
    items: &[Item],
    brick: u8,
) -> bool
    ensures { IsTrue result ↔ ((graph : ℕ) → graph ≤ now.newest → due_as plans.now tables.now known.now now graph brick ≡ true → has_connect graph brick items.now ≡ true) }
{
    for graph in 0..now.newest {
        if !is_met(plans, tables, known, now, items, graph, brick) {
            return false;
        }
    }
    is_met(plans, tables, known, now, items, now.newest, brick)
}

// At the making graph 1 is the newest.
fn has_due(plans: &[Plan], tables: &GraphTables, known: &Known, now: Moment, items: &[Item]) -> bool
    requires { now.effect ≡ Started → now.newest ≡ 1 }
    ensures { IsTrue result ↔ HasDue plans.now tables.now known.now now items.now }
{
    match now.effect {
        Effect::Started => newest_is_met(plans, tables, known, now, items),
        Effect::Switched => newest_is_met(plans, tables, known, now, items),
        Effect::Opened(brick) => opened_is_met(plans, tables, known, now, items, brick),
        _ => true,
    }
}

fn are_cut(known: &Known, effect: Effect, items: &[Item]) -> bool
    ensures { IsTrue result ↔ AreCut items.now known.now.links.items effect }
{
    match effect {
        Effect::Cut(brick) => all_cut(known.links.as_slice(), items, brick),
        _ => true,
    }
}

// ---- all

/// Whether what an event sends is what is due in it, by what is known before it. At the making graph 1 is the newest.
pub fn is_linked(
    log: &Log,
    plans: &[Plan],
    tables: &GraphTables,
    known: &Known,
    now: Moment,
    items: &[Item],
) -> bool
    requires { now.effect ≡ Started → now.newest ≡ 1 }
    ensures sound { result ≡ true → IsLinkedAs log.now plans.now tables.now known.now now items.now }
    ensures complete { AreSlotsLow log.now.winds → WindsInOrder log.now.winds → IsLinkedAs log.now plans.now tables.now known.now now items.now → result ≡ true }
{
    if !are_due(log, plans, tables, known, now, items)
        || !has_due(plans, tables, known, now, items)
    {
        return false;
    }
    are_cut(known, now.effect, items)
}
