ghost use Rattle.std.specs.Prelude.{◌≡◌, ◌≢◌, ◌<◌, ◌+◌, ◌↔◌, OnOk, OnErr, IfOk, IfSome, IsTrue, length, true};
ghost use Rattle.client_xlator.specs.Client.{carried};
ghost use Rattle.fop_types.specs.Bounds.{IsReq};
ghost use Rattle.graph_items.specs.Clients.{new_clients, reaches_at, connection_at, last_at, connected_at, ended_at, noted_at, sent_at, is_open_at, last_of, live_of, lasts_of};

use afr_phases::mask_of;
use client_xlator::{Client, Sent};
use fop_types::{BrickReq, Gfid, Mask};
use std::alloc::{AllocError, Global};
use std::marker::Model;
use xlator_law::WindNo;

/// The clients of a graph, by the numbers of their bricks. Those of bricks that the graph does not use are never
/// connected.
#[derive(Drop)]
pub struct Clients {
    all: Vec<Client>,
}

impl Model for Clients {
    ghost use Rattle.std.specs.Prelude.{List};
    ghost use Rattle.client_xlator.specs.Client.{ClientState};

    ghost Value = { List ClientState };

    ghost view = { λ c. c.all.items };
}

impl Clients {
    /// The clients of so many bricks, none of them connected.
    ///
    /// # Errors
    /// Out of memory.
    #[tactic(auto, using(crate::proofs::Fresh::new_more))]
    pub fn new(alloc: Global, bricks: u8, graph: u32) -> Result<Clients, AllocError>
        ensures { IfOk result (λ c. c ≡ new_clients bricks graph) }
    {
        let mut all = Vec::new(alloc);
        for brick in 0..bricks {
            all.push(Client::new(alloc, brick, graph))?;
        }
        Ok(Clients { all })
    }

    /// Whether there is a client of the brick with this number.
    pub fn has(&self, brick: u8) -> bool
        ensures { IsTrue result ↔ (brick < length self.now) }
    {
        (brick as usize) < self.all.len()
    }

    /// Whether a request that is bound to this connection, or to none, goes out to the brick.
    pub fn reaches(&self, brick: u8, bound: Option<u32>) -> bool
        ensures { result ≡ reaches_at self.now brick bound }
    {
        match self.all.get(brick as usize) {
            Some(client) => client.reaches(bound),
            None => false,
        }
    }

    /// The number of the open connection to a brick.
    pub fn connection(&self, brick: u8) -> Option<u32>
        ensures { result ≡ connection_at self.now brick }
    {
        match self.all.get(brick as usize) {
            Some(client) => client.connection(),
            None => None,
        }
    }

    /// The number of the brick's last connection, 0 where there was none.
    pub fn last(&self, brick: u8) -> u32
        ensures { result ≡ last_at self.now brick }
    {
        match self.all.get(brick as usize) {
            Some(client) => client.last(),
            None => 0,
        }
    }

    /// Opens the next connection to a brick that there is and gives its number, from 1. The last number is below
    /// 4,294,967,295.
    pub fn connect(&mut self, brick: u8) -> u32
        requires there { brick < length self.old }
        requires last { last_at self.old brick < 4294967295 }
        ensures number { result ≡ last_at self.old brick + 1 }
        ensures connected { self.new ≡ connected_at self.old brick }
    {
        match self.all.get_mut(brick as usize) {
            Some(client) => client.connect(),
            None => unreachable!(),
        }
    }

    /// Ends the open connection to a brick, if there is one.
    pub fn end(&mut self, brick: u8)
        ensures { self.new ≡ ended_at self.old brick }
    {
        match self.all.get_mut(brick as usize) {
            Some(client) => client.end(),
            None => {}
        }
    }

    /// Notes that a descriptor was opened on the open connection to a brick.
    ///
    /// # Errors
    /// Out of memory, and nothing changed.
    pub fn opened(
        &mut self,
        alloc: Global,
        brick: u8,
        fd: u32,
        gfid: Gfid,
    ) -> Result<(), AllocError>
        ensures noted { OnOk result (self.new ≡ noted_at self.old brick fd gfid) }
        ensures err { OnErr result (self.new ≡ self.old) }
    {
        match self.all.get_mut(brick as usize) {
            Some(client) => client.opened(alloc, fd, gfid),
            None => Ok(()),
        }
    }

    /// The messages that carry a request to a brick. The request has an encoding; `fd` is the descriptor on which it
    /// goes.
    ///
    /// # Errors
    /// Out of memory. The clients are unchanged in any case.
    pub fn send(
        &mut self,
        alloc: Global,
        brick: u8,
        w: WindNo,
        bound: Option<u32>,
        fd: Option<(u32, Gfid)>,
        req: BrickReq,
    ) -> Result<Sent, AllocError>
        requires slot { w.slot < 2147483648 }
        requires encoded { IsReq true req }
        requires fd { IfSome fd (λ f. (f.0 ≢ 0) × (carried req ≡ f.0)) }
        ensures sent { IfOk result (λ s. s ≡ sent_at self.old brick w bound fd req) }
        ensures kept { self.new ≡ self.old }
    {
        match self.all.get_mut(brick as usize) {
            Some(client) => client.send(alloc, w, bound, fd, req),
            None => Ok(Sent::NotConnected),
        }
    }

    // The same for the replica of a set with these bricks.
    fn last_of(&self, bricks: &[u8], replica: usize) -> u32
        ensures { result ≡ last_of self.now bricks.now replica }
    {
        match bricks.get(replica) {
            Some(brick) => self.last(*brick),
            None => 0,
        }
    }

    fn is_open(&self, bricks: &[u8], replica: usize) -> bool
        ensures { result ≡ is_open_at self.now bricks.now replica }
    {
        match bricks.get(replica) {
            Some(brick) => self.reaches(*brick, None),
            None => false,
        }
    }

    /// The replicas of a set with these bricks that are connected.
    pub fn live(&self, bricks: &[u8]) -> Mask
        ensures { result ≡ live_of self.now bricks.now }
    {
        mask_of([
            self.is_open(bricks, 0),
            self.is_open(bricks, 1),
            self.is_open(bricks, 2),
            self.is_open(bricks, 3),
            self.is_open(bricks, 4),
        ])
    }

    /// The number of each replica's last connection.
    pub fn lasts(&self, bricks: &[u8]) -> [u32; 5]
        ensures { result ≡ lasts_of self.now bricks.now }
    {
        [
            self.last_of(bricks, 0),
            self.last_of(bricks, 1),
            self.last_of(bricks, 2),
            self.last_of(bricks, 3),
            self.last_of(bricks, 4),
        ]
    }
}
