//! Whether a brick was lost to a call's graph.
ghost use Rattle.std.specs.Prelude.{◌≡◌, ◌≤◌, ◌+◌, ◌-◌, ◌↔◌, ℕ, IsTrue, true, false, Some, Contains, slice_get, IfOk};
ghost use Rattle.fop_types.specs.declared.messages.Input.TheVariants as input;
ghost use Rattle.wire_messages.specs.Messages.{input_in, output_in};
ghost use Rattle.wire_messages.specs.declared.messages.Message.TheVariants.{Whole};
ghost use Rattle.wire_xdr.specs.WireText.{input_text};
ghost use Rattle.mount_log.specs.Causes.{IsLost};
ghost use Rattle.mount_log.specs.Connections.{is_closed, says_closed, closes_by, was_sent, ends_in, is_open_after, last_connection, graph_of_call};
ghost use Rattle.mount_log.specs.Submissions.{submitted_at};
ghost use Rattle.error_audit.specs.Evidence.{IsSentTo, HasNumbers};
ghost use Rattle.error_audit.specs.AtPlaces.{IsDisconnectOf, IsDisconnectAt, IsClosing, EndsBy, IsLastEnd, IsClosedSince, IsClosedAt, IsWithin, IsLostBy};
ghost use Rattle.error_audit.specs.Opened.{openings_to};

use crate::connections::{Opening, count_openings};
use fop_types::{Input, OutKind, SetPlan};
use mount_log::by_place::{event_at, line_at};
use mount_log::{HubEvent, Log, ReplyLine, SentLine};
use std::alloc::{AllocError, Global};
use wire_messages::{Message, input_of, output_of};

/// An end of a brick's connections: the event in which it came, and where it came by a Disconnect, the graph and the place of
/// the line among those that were sent. It came by a Closed for all graphs.
#[derive(Clone, Copy)]
pub struct End {
    pub event: u64,
    pub by: Option<Sent>,
}

/// A Disconnect of a graph, by its place among the lines that were sent.
#[derive(Clone, Copy)]
pub struct Sent {
    pub graph: u32,
    pub place: usize,
}

/// How a brick was lost: a moment without a connection, by the end of the last one, and the moment at which it was found.
#[derive(Clone, Copy)]
pub struct Loss {
    pub moment: u64,
    pub found: u64,
    pub end: Option<End>,
}

/// A call's graph, and the event of its submission.
#[derive(Clone, Copy)]
pub struct Span {
    pub graph: u32,
    pub since: u64,
}

// ---- the end of a connection

fn is_closed(kind: &OutKind) -> bool
    ensures { result ≡ is_closed kind.now }
{
    match kind {
        OutKind::Closed => true,
        _ => false,
    }
}

fn says_closed(alloc: Global, bytes: &[u8]) -> Result<bool, AllocError>
    ensures { IfOk result (λ yes. yes ≡ says_closed (output_in bytes.now)) }
{
    match output_of(alloc, bytes)? {
        Message::Whole(output) => {
            let yes = is_closed(&output.kind);
            drop(output);
            Ok(yes)
        }
        Message::Wrong { place: _ } => Ok(false),
    }
}

fn closes(alloc: Global, event: &HubEvent, brick: u8) -> Result<bool, AllocError>
    ensures { IfOk result (λ yes. IsTrue yes ↔ (closes_by brick (Some event.now) ≡ true)) }
{
    match event {
        HubEvent::Arrive { brick: from, bytes } => {
            if *from != brick {
                return Ok(false);
            }
            let yes = says_closed(alloc, bytes.as_slice())?;
            Ok(yes)
        }
        _ => Ok(false),
    }
}

// Whether the event of a number, from 1, is the arrival of a Closed of the brick.
fn is_closing(alloc: Global, log: &Log, number: u64, brick: u8) -> Result<bool, AllocError>
    ensures sound { IfOk result (λ yes. yes ≡ true → closes_by brick (slice_get log.now.events (number - 1)) ≡ true) }
    ensures exact { IfOk result (λ yes. IsTrue yes ↔ IsClosing log.now number brick) }
{
    if number == 0 {
        return Ok(false);
    }
    match event_at(log, (number - 1) as usize) {
        Some(event) => {
            let yes = closes(alloc, event, brick)?;
            Ok(yes)
        }
        None => Ok(false),
    }
}

fn is_disconnect(sent: &Input, graph: u32) -> bool
    ensures { IsTrue result ↔ (sent.now ≡ input.Disconnect graph) }
{
    match sent {
        Input::Disconnect { graph: of } => *of == graph,
        _ => false,
    }
}

fn is_disconnect_text(alloc: Global, bytes: &[u8], graph: u32) -> Result<bool, AllocError>
    ensures sound { IfOk result (λ yes. yes ≡ true → bytes.now ≡ input_text (input.Disconnect graph)) }
    ensures exact { IfOk result (λ yes. IsTrue yes ↔ (input_in bytes.now ≡ Whole (input.Disconnect graph))) }
{
    match input_of(alloc, bytes)? {
        Message::Whole(sent) => {
            let yes = is_disconnect(&sent, graph);
            drop(sent);
            Ok(yes)
        }
        Message::Wrong { place: _ } => Ok(false),
    }
}

fn disconnects(
    alloc: Global,
    line: &SentLine,
    number: u64,
    brick: u8,
    graph: u32,
) -> Result<bool, AllocError>
    ensures sound { IfOk result (λ yes. yes ≡ true → IsSentTo number brick (input.Disconnect graph) line.now) }
    ensures exact { IfOk result (λ yes. IsTrue yes ↔ IsDisconnectOf number brick graph line.now) }
{
    if line.event != number || line.brick != brick {
        return Ok(false);
    }
    let yes = is_disconnect_text(alloc, line.bytes.as_slice(), graph)?;
    Ok(yes)
}

// Whether the line at a place is a Disconnect of the graph that an event sent to the brick.
fn was_disconnected(
    alloc: Global,
    log: &Log,
    place: usize,
    number: u64,
    brick: u8,
    graph: u32,
) -> Result<bool, AllocError>
    ensures sound { IfOk result (λ yes. yes ≡ true → was_sent log.now number brick (input.Disconnect graph) ≡ true) }
    ensures exact { IfOk result (λ yes. IsTrue yes ↔ IsDisconnectAt log.now place number brick graph) }
{
    let Some(line) = line_at(log, place) else {
        return Ok(false);
    };
    let yes = disconnects(alloc, line, number, brick, graph)?;
    Ok(yes)
}

// Whether the graph's connection to the brick ends by a Disconnect.
fn ends_by_line(
    alloc: Global,
    log: &Log,
    place: usize,
    number: u64,
    brick: u8,
    graph: u32,
) -> Result<bool, AllocError>
    ensures sound { IfOk result (λ yes. yes ≡ true → ends_in log.now graph brick number ≡ true) }
    ensures exact { IfOk result (λ yes. IsTrue yes ↔ IsDisconnectAt log.now place number brick graph) }
{
    let yes = was_disconnected(alloc, log, place, number, brick, graph)?;
    Ok(yes)
}

// Whether the graph's connection to the brick ends by a Closed.
fn ends_by_closed(
    alloc: Global,
    log: &Log,
    number: u64,
    brick: u8,
    graph: u32,
) -> Result<bool, AllocError>
    ensures sound { IfOk result (λ yes. yes ≡ true → ends_in log.now graph brick number ≡ true) }
    ensures exact { IfOk result (λ yes. IsTrue yes ↔ IsClosing log.now number brick) }
{
    let _ = graph;
    let yes = is_closing(alloc, log, number, brick)?;
    Ok(yes)
}

// Whether the graph's connection to the brick ends as is said.
fn is_end(alloc: Global, log: &Log, graph: u32, brick: u8, end: End) -> Result<bool, AllocError>
    ensures sound { IfOk result (λ yes. yes ≡ true → ends_in log.now graph brick end.event ≡ true) }
    ensures exact { IfOk result (λ yes. IsTrue yes ↔ EndsBy log.now graph brick end.event end.by) }
{
    match end.by {
        Some(sent) => {
            let yes = ends_by_line(alloc, log, sent.place, end.event, brick, graph)?;
            Ok(yes)
        }
        None => {
            let yes = ends_by_closed(alloc, log, end.event, brick, graph)?;
            Ok(yes)
        }
    }
}

// ---- a moment without a connection

// Whether no connection was opened since an end, which came before the moment.
fn is_last(openings: &[Opening], graph: u32, brick: u8, moment: u64, end: u64) -> bool
    ensures from_one { result ≡ true → 1 ≤ end }
    ensures later { result ≡ true → end ≤ moment }
    ensures same { result ≡ true → openings_to moment graph brick openings.now ≡ openings_to (end - 1) graph brick openings.now }
    ensures exact { IsTrue result ↔ IsLastEnd openings.now graph brick moment end }
{
    if end == 0 || end > moment {
        return false;
    }
    count_openings(openings, moment, graph, brick)
        == count_openings(openings, end - 1, graph, brick)
}

fn is_closed_since(
    alloc: Global,
    log: &Log,
    openings: &[Opening],
    graph: u32,
    brick: u8,
    moment: u64,
    end: End,
) -> Result<bool, AllocError>
    requires { HasNumbers log.now graph brick openings.now }
    ensures sound { IfOk result (λ yes. yes ≡ true → is_open_after log.now graph brick moment ≡ false) }
    ensures exact { IfOk result (λ yes. IsTrue yes ↔ IsClosedSince log.now openings.now graph brick moment end) }
{
    if !is_last(openings, graph, brick, moment, end.event) {
        return Ok(false);
    }
    let yes = is_end(alloc, log, graph, brick, end)?;
    Ok(yes)
}

fn has_none(openings: &[Opening], graph: u32, brick: u8, moment: u64) -> bool
    ensures { IsTrue result ↔ (openings_to moment graph brick openings.now ≡ 0) }
{
    count_openings(openings, moment, graph, brick) == 0
}

// Whether no connection was opened yet.
fn is_never_open(log: &Log, openings: &[Opening], graph: u32, brick: u8, moment: u64) -> bool
    requires { HasNumbers log.now graph brick openings.now }
    ensures sound { result ≡ true → is_open_after log.now graph brick moment ≡ false }
    ensures exact { IsTrue result ↔ (openings_to moment graph brick openings.now ≡ 0) }
{
    let _ = log;
    has_none(openings, graph, brick, moment)
}

// Whether the graph had no open connection to the brick at a moment, by the end of the last one, if there was one.
fn is_closed_at(
    alloc: Global,
    log: &Log,
    openings: &[Opening],
    graph: u32,
    brick: u8,
    moment: u64,
    end: Option<End>,
) -> Result<bool, AllocError>
    requires { HasNumbers log.now graph brick openings.now }
    ensures sound { IfOk result (λ yes. yes ≡ true → is_open_after log.now graph brick moment ≡ false) }
    ensures exact { IfOk result (λ yes. IsTrue yes ↔ IsClosedAt log.now openings.now graph brick moment end) }
{
    if is_never_open(log, openings, graph, brick, moment) {
        return Ok(true);
    }
    match end {
        Some(end) => {
            let yes = is_closed_since(alloc, log, openings, graph, brick, moment, end)?;
            Ok(yes)
        }
        None => Ok(false),
    }
}

// ---- a loss

// Whether the moments of a loss are those of a call, from the event before its submission to that of its reply.
fn is_within(since: u64, until: u64, loss: Loss) -> bool
    ensures since { result ≡ true → since ≤ loss.moment + 1 }
    ensures later { result ≡ true → loss.moment ≤ loss.found }
    ensures until { result ≡ true → loss.found ≤ until }
    ensures exact { IsTrue result ↔ IsWithin since until loss }
{
    if since > loss.moment && since - 1 != loss.moment {
        return false;
    }
    loss.moment <= loss.found && loss.found <= until
}

/// Whether a brick is one of a set.
pub fn has_brick(plan: &SetPlan, brick: u8) -> bool
    ensures { IsTrue result ↔ Contains plan.now.bricks brick }
{
    plan.bricks.as_slice().contains(&brick)
}

fn has_number(openings: &[Opening], graph: u32, brick: u8, found: u64, number: u32) -> bool
    ensures { IsTrue result ↔ (number ≡ openings_to found graph brick openings.now) }
{
    count_openings(openings, found, graph, brick) == number as usize
}

/// Whether a brick of a set was lost to a call before its reply, with this connection's number, by the connections to the
/// brick.
///
/// # Errors
/// Out of memory.
pub fn is_lost(
    alloc: Global,
    log: &Log,
    openings: &[Opening],
    plan: &SetPlan,
    reply: &ReplyLine,
    span: Span,
    pair: &(u8, u32),
    loss: Loss,
) -> Result<bool, AllocError>
    requires numbers { HasNumbers log.now span.graph pair.now.0 openings.now }
    requires graph { span.graph ≡ graph_of_call log.now reply.now.call }
    requires since { span.since ≡ submitted_at log.now reply.now.call }
    ensures sound { IfOk result (λ yes. yes ≡ true → IsLost log.now plan.now reply.now.call reply.now.event pair.now) }
    ensures exact { IfOk result (λ yes. IsTrue yes ↔ IsLostBy log.now openings.now plan.now span.graph span.since reply.now.event pair.now loss) }
{
    if !has_brick(plan, pair.0) || !is_within(span.since, reply.event, loss) {
        return Ok(false);
    }
    if !has_number(openings, span.graph, pair.0, loss.found, pair.1) {
        return Ok(false);
    }
    let yes = is_closed_at(
        alloc,
        log,
        openings,
        span.graph,
        pair.0,
        loss.moment,
        loss.end,
    )?;
    Ok(yes)
}
