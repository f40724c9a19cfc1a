//! Whether in each event graphs connect where they are to, and disconnect for a cause.
ghost use Rattle.std.specs.Prelude.{◌≡◌, ◌<◌, ◌≤◌, ◌+◌, ◌^◌, ℕ, [], true, length, map, IsSome, IfNone, IfOk, IfSome};
ghost use Rattle.wire_messages.specs.Messages.{MessagesReadBack};
ghost use Rattle.mount_log.specs.Heads.{heads_of};
ghost use Rattle.mount_log.specs.Graphs.{volfiles_of};
ghost use Rattle.line_audit.specs.Slots.{AreSlotsLow};
ghost use Rattle.line_audit.specs.Linked.{items_of, in_event, AreByEvent, WindsInOrder, IsEffectAt, IsKnown, AreGraphTables, IsLinked, AreLinked, AreGraphsFew, AreUsesBelow, CanBeLinked};

use crate::due::{GraphTables, Moment};
use crate::effects::{Effect, effect_of, newest_after};
use crate::event_links::is_linked;
use crate::known::Known;
use crate::last_uses::last_uses;
use crate::lines_sent::{Item, by_event, items_at};
use graph_build::Plan;
use mount_log::Log;
use mount_log::by_place::event_at;
use mount_log::call_graphs::graphs_of;
use mount_log::heads::{Head, head_at};
use script_lang::Script;
use std::alloc::{AllocError, Global};
use wire_messages::messages_read_back;

// ---- an event

// The start: graph 1 is made and connected.
fn starts(
    alloc: Global,
    script: &Script,
    plans: &[Plan],
    log: &Log,
    tables: &GraphTables,
    known: &mut Known,
    items: &[Item],
) -> Result<bool, AllocError>
    requires read { MessagesReadBack }
    requires tables { AreGraphTables script.now log.now tables.now }
    requires items { items.now ≡ in_event 0 (items_of log.now.sent) }
    requires links { known.old.links.items ≡ [] }
    requires closed { known.old.closed.items ≡ [] }
    requires newest { known.old.newest ≡ 1 }
    ensures linked { IfOk result (λ yes. yes ≡ true → IsLinked script.now plans.now log.now 0) }
    ensures known { IfOk result (λ yes. yes ≡ true → IsKnown log.now 0 known.new) }
    ensures complete { IfOk result (λ yes. AreSlotsLow log.now.winds → WindsInOrder log.now.winds → IsLinked script.now plans.now log.now 0 → yes ≡ true) }
{
    let _ = script;
    let now = Moment {
        number: 0,
        newest: 1,
        effect: Effect::Started,
    };
    if !is_linked(log, plans, tables, known, now, items) {
        return Ok(false);
    }
    known.pass(alloc, Effect::Started, 1, items)?;
    Ok(true)
}

// The event at a place, behind what is known.
fn passes(
    alloc: Global,
    script: &Script,
    plans: &[Plan],
    log: &Log,
    tables: &GraphTables,
    known: &mut Known,
    k: usize,
    number: u64,
    effect: Effect,
    items: &[Item],
) -> Result<bool, AllocError>
    requires read { MessagesReadBack }
    requires number { number ≡ k + 1 }
    requires tables { AreGraphTables script.now log.now tables.now }
    requires items { items.now ≡ in_event (k + 1) (items_of log.now.sent) }
    requires effect { IsEffectAt log.now k effect }
    requires low { k < length log.now.events }
    requires known { IsKnown log.now k known.old }
    ensures linked { IfOk result (λ yes. yes ≡ true → IsLinked script.now plans.now log.now (k + 1)) }
    ensures known { IfOk result (λ yes. yes ≡ true → IsKnown log.now (k + 1) known.new) }
    ensures complete { IfOk result (λ yes. AreGraphsFew log.now → AreSlotsLow log.now.winds → WindsInOrder log.now.winds → IsLinked script.now plans.now log.now (k + 1) → yes ≡ true) }
{
    let _ = script;
    let _ = k;
    let Some(newest) = newest_after(known.newest, effect) else {
        return Ok(false);
    };
    let now = Moment {
        number,
        newest,
        effect,
    };
    if !is_linked(log, plans, tables, known, now, items) {
        return Ok(false);
    }
    known.pass(alloc, effect, newest, items)?;
    Ok(true)
}

fn effect_at(log: &Log, heads: &[Head], k: usize) -> Option<Effect>
    requires { heads.now ≡ heads_of log.now.events }
    ensures effect { IfSome result (λ e. IsEffectAt log.now k e) }
    ensures none { IfNone result (length log.now.events ≤ k) }
{
    let Some(head) = head_at(heads, k) else {
        return None;
    };
    match event_at(log, k) {
        Some(event) => Some(effect_of(event, head)),
        None => None,
    }
}

fn next_passes(
    alloc: Global,
    script: &Script,
    plans: &[Plan],
    log: &Log,
    heads: &[Head],
    tables: &GraphTables,
    known: &mut Known,
    k: usize,
    number: u64,
    items: &[Item],
) -> Result<bool, AllocError>
    requires read { MessagesReadBack }
    requires number { number ≡ k + 1 }
    requires heads { heads.now ≡ heads_of log.now.events }
    requires tables { AreGraphTables script.now log.now tables.now }
    requires items { items.now ≡ in_event (k + 1) (items_of log.now.sent) }
    requires low { k < length log.now.events }
    requires known { IsKnown log.now k known.old }
    ensures linked { IfOk result (λ yes. yes ≡ true → IsLinked script.now plans.now log.now (k + 1)) }
    ensures known { IfOk result (λ yes. yes ≡ true → IsKnown log.now (k + 1) known.new) }
    ensures complete { IfOk result (λ yes. AreGraphsFew log.now → AreSlotsLow log.now.winds → WindsInOrder log.now.winds → IsLinked script.now plans.now log.now (k + 1) → yes ≡ true) }
{
    let Some(effect) = effect_at(log, heads, k) else {
        return Ok(false);
    };
    let yes = passes(
        alloc, script, plans, log, tables, known, k, number, effect, items,
    )?;
    Ok(yes)
}

// ---- all events

fn tables_of(alloc: Global, script: &Script, log: &Log) -> Result<Option<GraphTables>, AllocError>
    ensures tables { IfOk result (λ found. IfSome found (AreGraphTables script.now log.now)) }
    ensures complete { IfOk result (λ found. AreGraphsFew log.now → AreUsesBelow log.now (length (volfiles_of script.now log.now) + 1) → IsSome found) }
{
    let volfiles = graphs_of(alloc, script, log)?;
    if volfiles.len() == usize::MAX {
        return Ok(None);
    }
    match last_uses(alloc, log, volfiles.len() + 1)? {
        Some(until) => Ok(Some(GraphTables { volfiles, until })),
        None => Ok(None),
    }
}

fn all_pass(
    alloc: Global,
    script: &Script,
    plans: &[Plan],
    log: &Log,
    heads: &[Head],
    tables: &GraphTables,
    lists: &[Vec<Item>],
) -> Result<bool, AllocError>
    requires heads { heads.now ≡ heads_of log.now.events }
    requires tables { AreGraphTables script.now log.now tables.now }
    requires lists { AreByEvent (items_of log.now.sent) (map (λ l. l.items) lists.now) }
    ensures sound { IfOk result (λ yes. yes ≡ true → (number : ℕ) → number ≤ length log.now.events → IsLinked script.now plans.now log.now number) }
    ensures complete { IfOk result (λ yes. AreGraphsFew log.now → AreSlotsLow log.now.winds → WindsInOrder log.now.winds → ((number : ℕ) → number ≤ length log.now.events → IsLinked script.now plans.now log.now number) → yes ≡ true) }
{
    messages_read_back();
    let mut known = Known::new(alloc);
    if !starts(
        alloc,
        script,
        plans,
        log,
        tables,
        &mut known,
        items_at(lists, 0),
    )? {
        return Ok(false);
    }
    for k in 0..log.events.len() {
        let items = items_at(lists, k + 1);
        let number = k as u64 + 1;
        if !next_passes(
            alloc, script, plans, log, heads, tables, &mut known, k, number, items,
        )? {
            return Ok(false);
        }
    }
    Ok(true)
}

/// Whether in each event graphs connect exactly where they are to, and disconnect for a cause, and where they are cut.
///
/// # Errors
/// Out of memory.
pub fn are_linked(
    alloc: Global,
    script: &Script,
    plans: &[Plan],
    log: &Log,
    heads: &[Head],
) -> Result<bool, AllocError>
    requires heads { heads.now ≡ heads_of log.now.events }
    ensures sound { IfOk result (λ yes. yes ≡ true → AreLinked script.now plans.now log.now) }
    ensures complete { IfOk result (λ yes. CanBeLinked script.now log.now → AreLinked script.now plans.now log.now → yes ≡ true) }
{
    let Some(tables) = tables_of(alloc, script, log)? else {
        return Ok(false);
    };
    let Some(lists) = by_event(alloc, log)? else {
        return Ok(false);
    };
    if lists.is_empty() || lists.len() - 1 != log.events.len() {
        drop(lists);
        drop(tables);
        return Ok(false);
    }
    let yes = all_pass(alloc, script, plans, log, heads, &tables, lists.as_slice())?;
    drop(lists);
    drop(tables);
    Ok(yes)
}
