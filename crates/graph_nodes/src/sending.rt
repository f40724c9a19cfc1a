//! The messages of the winds that a run hands out of the graph.
ghost use Rattle.std.specs.Prelude.{◌≡◌, ◌<◌, ◌++◌, [], map, OnOk};
ghost use Rattle.std.specs.List.{flat_map};
ghost use Rattle.graph_items.specs.Clients.{sent_at};
ghost use Rattle.graph_items.specs.Descriptors.{fd_of};
ghost use Rattle.graph_nodes.specs.Calls.{brick_by, brick_at, request_of, messages_in, request_messages, messages_to, sends_in};

use crate::kinds::{Kind, Node};
use crate::outer::{AtBrick, Waiting};
use client_xlator::Sent;
use fop_types::{Gfid, Seq};
use frame_driver::{Queue, Sent as SentWind};
use graph_items::{Clients, Down, Request, fd_of, opened_by};
use std::alloc::{AllocError, Global};
use xlator_law::WindNo;

/// The messages of the winds that were handed out.
///
/// # Errors
/// Out of memory.
pub(crate) fn take_sends(
    alloc: Global,
    nodes: &[Node],
    clients: &mut Clients,
    outer: &mut Vec<AtBrick>,
    handed: &mut Queue<SentWind<Down>>,
    sends: &mut Seq<(u8, Seq<u8>)>,
) -> Result<(), AllocError>
    ensures handed { OnOk result (handed.new ≡ []) }
    ensures sends { OnOk result (sends.new ≡ sends.old ++ flat_map (sends_in nodes.now clients.old) handed.old) }
    ensures clients { OnOk result (clients.new ≡ clients.old) }
{
    while let Some(sent) = handed.pop() {
        send(alloc, nodes, clients, outer, sent, sends)?;
    }
    Ok(())
}

// A wind that was handed out goes to its brick. Clients alone hand out winds, each with a request; what another node
// handed out would have no message.
fn send(
    alloc: Global,
    nodes: &[Node],
    clients: &mut Clients,
    outer: &mut Vec<AtBrick>,
    sent: SentWind<Down>,
    sends: &mut Seq<(u8, Seq<u8>)>,
) -> Result<(), AllocError>
    ensures sends { OnOk result (sends.new ≡ sends.old ++ sends_in nodes.now clients.old sent) }
    ensures clients { OnOk result (clients.new ≡ clients.old) }
{
    let brick = brick_at(nodes, sent.node);
    let wind = sent.wind;
    send_asked(
        alloc,
        clients,
        outer,
        wind,
        brick.zip(request_of(sent.fop)),
        sends,
    )
}

// A request goes to its brick, if there are both.
#[tactic(auto, using(crate::proofs::Giving::none_more))]
fn send_asked(
    alloc: Global,
    clients: &mut Clients,
    outer: &mut Vec<AtBrick>,
    wind: WindNo,
    asked: Option<(u8, Request)>,
    sends: &mut Seq<(u8, Seq<u8>)>,
) -> Result<(), AllocError>
    ensures sends { OnOk result (sends.new ≡ sends.old ++ messages_to clients.old wind asked) }
    ensures clients { OnOk result (clients.new ≡ clients.old) }
{
    match asked {
        Some((brick, request)) => send_request(alloc, clients, outer, brick, wind, request, sends),
        None => Ok(()),
    }
}

// The request that was handed out, if it is one.
fn request_of(down: Down) -> Option<Request>
    ensures { result ≡ request_of down }
{
    match down {
        Down::Request(request) => Some(request),
        Down::Fop(fop) => {
            drop(fop);
            None
        }
        Down::Job(job) => {
            drop(job);
            None
        }
    }
}

/// The brick of the client with this number.
pub(crate) fn brick_at(nodes: &[Node], number: u16) -> Option<u8>
    ensures { result ≡ brick_at nodes.now number }
{
    match nodes.get(number as usize) {
        Some(node) => brick_by(&node.kind),
        None => None,
    }
}

fn brick_by(kind: &Kind) -> Option<u8>
    ensures { result ≡ brick_by kind.now }
{
    match kind {
        Kind::Root => None,
        Kind::Pass => None,
        Kind::IoThreads(_) => None,
        Kind::IoCache(_) => None,
        Kind::Distribute(_) => None,
        Kind::Replicate(_) => None,
        Kind::Client(client) => Some(client.brick),
    }
}

// The messages of a request. Slots are below 2,147,483,648: a request of which that were not so would have no message.
#[tactic(auto, using(crate::proofs::Giving::none_more))]
fn send_request(
    alloc: Global,
    clients: &mut Clients,
    outer: &mut Vec<AtBrick>,
    brick: u8,
    wind: WindNo,
    request: Request,
    sends: &mut Seq<(u8, Seq<u8>)>,
) -> Result<(), AllocError>
    ensures sends { OnOk result (sends.new ≡ sends.old ++ map (λ m. (brick, m)) (request_messages clients.old brick wind request)) }
    ensures clients { OnOk result (clients.new ≡ clients.old) }
{
    if wind.slot < 2147483648 {
        return send_messages(alloc, clients, outer, brick, wind, request, sends);
    }
    drop(request);
    Ok(())
}

// The messages of a request, whose wind is open at the brick from now on. Its connection was open when the client handed it
// out, and no connection ends while a run goes on.
#[tactic(auto, using(crate::proofs::Giving::none_more))]
fn send_messages(
    alloc: Global,
    clients: &mut Clients,
    outer: &mut Vec<AtBrick>,
    brick: u8,
    wind: WindNo,
    request: Request,
    sends: &mut Seq<(u8, Seq<u8>)>,
) -> Result<(), AllocError>
    requires { wind.slot < 2147483648 }
    ensures sends { OnOk result (sends.new ≡ sends.old ++ map (λ m. (brick, m)) (messages_in (sent_at clients.old brick wind request.bound (fd_of request.req) request.req))) }
    ensures clients { OnOk result (clients.new ≡ clients.old) }
{
    let bound = request.bound();
    let req = request.into_req();
    let own = opened_by(&req);
    let fd = fd_of(&req);
    let sent = clients.send(alloc, brick, wind, bound, fd, req)?;
    match sent {
        Sent::Messages(messages) => {
            let before = before_of(messages.len(), fd);
            push_all(brick, messages, sends)?;
            open_at(outer, brick, Waiting { wind, before, own })?;
            Ok(())
        }
        Sent::NotConnected => Ok(()),
    }
}

// The descriptor of the open that goes before a request, where its messages are so many.
fn before_of(messages: usize, fd: Option<(u32, Gfid)>) -> Option<(u32, Gfid)> {
    if messages > 1 { fd } else { None }
}

// A wind is open at a brick that the graph uses.
fn open_at(outer: &mut Vec<AtBrick>, brick: u8, waiting: Waiting) -> Result<(), AllocError> {
    match outer.get_mut(brick as usize) {
        Some(at) => at.open(waiting),
        None => Ok(()),
    }
}

// Messages go to a brick, in order.
fn push_all(
    brick: u8,
    messages: Seq<Seq<u8>>,
    sends: &mut Seq<(u8, Seq<u8>)>,
) -> Result<(), AllocError>
    ensures { OnOk result (sends.new ≡ sends.old ++ map (λ m. (brick, m)) messages) }
{
    let mut rest = Queue::from_vec(messages.into_vec());
    while let Some(message) = rest.pop() {
        sends.push((brick, message))?;
    }
    Ok(())
}
