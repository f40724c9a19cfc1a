ghost use Rattle.std.specs.Prelude.{ℕ, ◌≡◌, ◌≢◌, ◌<◌, ◌+◌, ◌∷◌, ◌++◌, [], None, true, IsSome, OnOk, OnErr, IfOk, IfSome};
ghost use Rattle.wire_xdr.specs.MessageText.{IsReq};
ghost use Rattle.xlator_law.specs.Numbers.{wind_number};
ghost use Rattle.client_xlator.specs.Client.{new_client, connected, ended, noted, known_at, is_known, is_reachable, opens, message, sent_by, carried};

use crate::sent::Sent;
use fop_types::{BrickReq, Gfid, Input, Seq};
use std::alloc::{AllocError, Global};
use std::collections::BTreeMap;
use std::marker::Model;
use wire_xdr::encode_req;
use xlator_law::WindNo;

/// The client of one brick in one graph. Contracts see the brick, the graph, how many connections there
/// were, the number of the open one, and for each descriptor that was opened on it the gfid of its last
/// open.
#[derive(Drop)]
pub struct Client {
    brick: u8,
    graph: u32,
    last: u32,
    connection: Option<u32>,
    known: BTreeMap<u32, Gfid>,
}

impl Model for Client {
    ghost use Rattle.client_xlator.specs.Client.{ClientState};

    ghost Value = { ClientState };

    ghost view = { λ c. record {
      brick = c.brick;
      graph = c.graph;
      last = c.last;
      connection = c.connection;
      known = c.known.entries;
    } };
}

#[tactic(auto, using(crate::proofs::Known::noted_known, crate::proofs::Known::noted_others))]
impl Client {
    /// The client of a brick in a graph, without a connection. It takes no memory.
    pub fn new(alloc: Global, brick: u8, graph: u32) -> Client
        ensures { result ≡ new_client brick graph }
    {
        Client {
            brick,
            graph,
            last: 0,
            connection: None,
            known: BTreeMap::new(alloc),
        }
    }

    /// The number of the brick.
    pub fn brick(&self) -> u8
        ensures { result ≡ self.now.brick }
    {
        self.brick
    }

    /// Opens the next connection and gives its number, from 1. No descriptor is open on it yet. The last
    /// number is below 4,294,967,295.
    pub fn connect(&mut self) -> u32
        requires { self.old.last < 4294967295 }
        ensures number { result ≡ self.old.last + 1 }
        ensures connected { self.new ≡ connected self.old }
        ensures forgets { (fd : ℕ) → known_at self.new fd ≡ None }
    {
        self.known.clear();
        self.last += 1;
        self.connection = Some(self.last);
        self.last
    }

    /// Ends the open connection, if there is one, and forgets what was opened on it.
    pub fn end(&mut self)
        ensures { self.new ≡ ended self.old }
    {
        self.known.clear();
        self.connection = None;
    }

    /// The number of the open connection, `None` exactly where none is open.
    pub fn connection(&self) -> Option<u32>
        ensures { result ≡ self.now.connection }
    {
        self.connection
    }

    /// The number of the last connection, 0 where there was none.
    pub fn last(&self) -> u32
        ensures { result ≡ self.now.last }
    {
        self.last
    }

    /// Whether a request that is bound to this connection, or to none, goes out.
    pub fn reaches(&self, bound: Option<u32>) -> bool
        ensures { result ≡ is_reachable self.now.connection bound }
    {
        is_reachable(self.connection, bound)
    }

    /// Notes that an open of that number and gfid was answered Done on the open connection; it changes
    /// nothing where none is open. The table grows in the allocator that it was made with.
    ///
    /// # Errors
    /// Out of memory, and nothing changed.
    pub fn opened(&mut self, _alloc: Global, fd: u32, gfid: Gfid) -> Result<(), AllocError>
        ensures noted { OnOk result (self.new ≡ noted self.old fd gfid) }
        ensures known { OnOk result (IsSome self.old.connection → is_known self.new fd gfid ≡ true) }
        ensures others { OnOk result ((other : ℕ) → other ≢ fd → known_at self.new other ≡ known_at self.old other) }
        ensures err { OnErr result (self.new ≡ self.old) }
    {
        if self.connection.is_none() {
            return Ok(());
        }
        self.known.insert(fd, gfid)?;
        Ok(())
    }

    /// The messages that carry a request to the brick: the request, with an open before it where `fd` names
    /// a descriptor that is new to the connection. `w` is the request's wind, with a slot below
    /// 2,147,483,648. `bound` is the connection on which the request's lock was granted. `fd` is a
    /// descriptor's number, which is not 0 and which the request carries, with its gfid. The request has an
    /// encoding.
    ///
    /// `NotConnected` comes exactly where no connection is open, or another one than `bound` names.
    ///
    /// # Errors
    /// Out of memory. The client is unchanged in any case.
    pub fn send(
        &mut self,
        alloc: Global,
        w: WindNo,
        bound: Option<u32>,
        fd: Option<(u32, Gfid)>,
        req: BrickReq,
    ) -> Result<Sent, AllocError>
        requires slot { w.slot < 2147483648 }
        requires encoded { IsReq true req }
        requires fd { IfSome fd (λ f. (f.0 ≢ 0) × (carried req ≡ f.0)) }
        ensures sent { IfOk result (λ s. s ≡ sent_by self.old w bound fd req) }
        ensures kept { self.new ≡ self.old }
    {
        if is_reachable(self.connection, bound) {
            let messages = self.messages(alloc, w, fd, req)?;
            Ok(Sent::Messages(messages))
        } else {
            drop(req);
            Ok(Sent::NotConnected)
        }
    }

    // The messages that carry a request over the open connection.
    fn messages(
        &self,
        alloc: Global,
        w: WindNo,
        fd: Option<(u32, Gfid)>,
        req: BrickReq,
    ) -> Result<Seq<Seq<u8>>, AllocError>
        requires slot { w.slot < 2147483648 }
        requires encoded { IsReq true req }
        requires fd { IfSome fd (λ f. f.0 ≢ 0) }
        ensures { IfOk result (λ ms. ms ≡ opens self.now w fd ++ message self.now.graph (wind_number w) req ∷ []) }
    {
        let request = message(alloc, self.graph, w.number(), req)?;
        let mut messages = self.opens(alloc, w, fd)?;
        messages.push(request)?;
        Ok(messages)
    }

    // The open of a descriptor that is new to the connection, and else no message.
    fn opens(
        &self,
        alloc: Global,
        w: WindNo,
        fd: Option<(u32, Gfid)>,
    ) -> Result<Seq<Seq<u8>>, AllocError>
        requires slot { w.slot < 2147483648 }
        requires fd { IfSome fd (λ f. f.0 ≢ 0) }
        ensures { IfOk result (λ ms. ms ≡ opens self.now w fd) }
    {
        let mut messages = Seq::new(alloc);
        let Some((number, gfid)) = fd else {
            return Ok(messages);
        };
        if self.knows(number, gfid) {
            return Ok(messages);
        }
        let open = BrickReq::Open { fd: number, gfid };
        let opening = message(alloc, self.graph, w.open_before().number(), open)?;
        messages.push(opening)?;
        Ok(messages)
    }

    // Whether the last open of the number that was answered Done on the open connection had this gfid.
    fn knows(&self, fd: u32, gfid: Gfid) -> bool
        ensures { result ≡ is_known self.now fd gfid }
    {
        match self.known.get(&fd) {
            Some(known) => *known == gfid,
            None => false,
        }
    }
}

// Whether a connection is open and is the one that is asked for.
fn is_reachable(connection: Option<u32>, bound: Option<u32>) -> bool
    ensures { result ≡ is_reachable connection bound }
{
    match (connection, bound) {
        (Some(open), Some(asked)) => open == asked,
        (Some(_), None) => true,
        (None, _) => false,
    }
}

fn message(alloc: Global, graph: u32, wind: u64, req: BrickReq) -> Result<Seq<u8>, AllocError>
    requires { IsReq true req }
    ensures { IfOk result (λ m. m ≡ message graph wind req) }
{
    let input = Input::Request { wind, graph, req };
    let bytes = encode_req(alloc, &input);
    drop(input);
    Ok(Seq::from_vec(bytes?))
}
