//! The calls that have no reply.
ghost use Rattle.std.specs.Prelude.{◌≡◌, ◌+◌, ◌++◌, ◌∷◌, [], length, option_copied, OnOk, OnErr, IfOk};
ghost use Rattle.hub_tables.specs.OpenCalls.{no_calls, call_at, count_of, with_call, with_change, without_call, with_number, with_draw, last_gfid, put_reply, is_last, with_reply, reply_in, oldest_graph, with_parked, without_parked, first_from};
ghost use Rattle.hub_tables.specs.declared.calls.Stage.TheVariants.{Asks};

use call_fops::Walk;
use fop_types::{Gfid, Seq};
use mount_log::LineAt;
use std::alloc::{AllocError, Global};
use std::collections::{BTreeMap, BTreeSet};
use std::marker::Model;

/// Where a call is: it waits until the calls of an older graph with fewer sets are answered; it waits for the hold of its
/// next fop, or has just asked for it; its fop is in its graph; the fop waits until the hold is extended; or it runs under
/// the hold that was extended.
#[derive(Clone, Copy, PartialEq, Eq)]
pub enum Stage {
    Parked,
    Asks,
    Runs,
    Extends,
    Extended,
}

/// A call without a reply: its session and line, its graph, the gfid that it drew, the places of its fops so far, its
/// lookups, and where it is.
#[derive(Drop)]
pub struct CallState {
    pub session: u8,
    pub at: LineAt,
    pub line: u32,
    pub graph: u32,
    pub drawn: Gfid,
    pub places: Seq<u32>,
    pub walk: Walk,
    pub stage: Stage,
}

/// The calls without a reply by their numbers, those among them that are parked, how many each graph has, and how many
/// calls and how many mkdir and create calls were submitted. `replies` has, by call, where its reply is in the log.
#[derive(Drop)]
pub struct Calls {
    states: BTreeMap<u32, CallState>,
    parked: BTreeSet<u32>,
    by_graph: BTreeMap<u32, u32>,
    submitted: u32,
    drawn: u64,
    replies: Vec<Option<usize>>,
}

impl Model for Calls {
    ghost use Rattle.hub_tables.specs.OpenCalls.{CallsState};

    ghost Value = { CallsState };

    ghost view = { λ c. record { states = c.states.entries; parked = c.parked.keys; by_graph = c.by_graph.entries; submitted = c.submitted; drawn = c.drawn; replies = c.replies.items } };
}

impl CallState {
    /// A fop of the call was answered at this place.
    ///
    /// # Errors
    /// Out of memory.
    pub fn add_place(&mut self, place: u32) -> Result<(), AllocError>
        ensures ok { OnOk result (self.new ≡ record self.old { places = self.old.places ++ place ∷ [] }) }
        ensures err { OnErr result (self.new ≡ self.old) }
    {
        self.places.push(place)?;
        Ok(())
    }
}

impl Calls {
    /// No calls, which takes no memory.
    pub fn new(alloc: Global) -> Calls
        ensures { result ≡ no_calls }
    {
        Calls {
            states: BTreeMap::new(alloc),
            parked: BTreeSet::new(alloc),
            by_graph: BTreeMap::new(alloc),
            submitted: 0,
            drawn: 0,
            replies: Vec::new(alloc),
        }
    }

    /// Numbers the next call. So many calls that their number has no next one would not fit into any memory.
    ///
    /// # Errors
    /// Out of memory.
    pub fn number(&mut self) -> Result<u32, AllocError>
        ensures call { IfOk result (λ call. call ≡ self.old.submitted + 1) }
        ensures ok { OnOk result (self.new ≡ with_number self.old) }
        ensures err { OnErr result (self.new ≡ self.old) }
    {
        let call = match self.submitted.checked_add(1) {
            Some(call) => call,
            None => return Err(AllocError),
        };
        self.replies.push(None)?;
        self.submitted = call;
        Ok(call)
    }

    /// Draws the gfid of a call that makes an object. Fewer were drawn than calls were numbered.
    pub fn draw(&mut self) -> Gfid
        ensures gfid { result ≡ last_gfid self.new }
        ensures one { self.new ≡ with_draw self.old }
    {
        self.drawn = self.drawn.saturating_add(1);
        Gfid {
            hi: 0,
            lo: self.drawn.saturating_add(1),
        }
    }

    /// A call without a reply.
    pub fn get(&self, call: u32) -> Option<&CallState>
        ensures { option_copied result ≡ call_at self.now call }
    {
        self.states.get(&call)
    }

    /// Puts a call, if it is there, into another stage.
    pub fn set_stage(&mut self, call: u32, stage: Stage)
        ensures { self.new ≡ with_change self.old call (λ s. record s { stage = stage }) }
    {
        let Some(state) = self.states.get_mut(&call) else {
            return;
        };
        state.stage = stage;
    }

    /// A call is submitted.
    ///
    /// # Errors
    /// Out of memory.
    pub fn open(&mut self, call: u32, state: CallState) -> Result<(), AllocError>
        ensures { OnOk result (self.new ≡ with_call self.old call state) }
    {
        let count = self.count_of(state.graph).saturating_add(1);
        self.by_graph.insert(state.graph, count)?;
        self.states.insert(call, state)?;
        Ok(())
    }

    /// A fop of a call, if that is there, was answered at this place.
    ///
    /// # Errors
    /// Out of memory.
    pub fn add_place(&mut self, call: u32, place: u32) -> Result<(), AllocError>
        ensures { OnOk result (self.new ≡ with_change self.old call (λ s. record s { places = s.places ++ place ∷ [] })) }
    {
        let Some(state) = self.states.get_mut(&call) else {
            return Ok(());
        };
        state.add_place(place)
    }

    /// A call, if it is there, goes on from where its walk is now: it is to ask for its next fop's hold.
    pub fn go_on(&mut self, call: u32, walk: Walk)
        ensures { self.new ≡ with_change self.old call (λ s. record s { walk = walk; stage = Asks }) }
    {
        let Some(state) = self.states.get_mut(&call) else {
            return;
        };
        state.walk = walk;
        state.stage = Stage::Asks;
    }

    /// Takes a call out, which has its reply.
    pub fn take(&mut self, call: u32) -> Option<CallState>
        ensures state { result ≡ call_at self.old call }
        ensures gone { self.new ≡ without_call self.old call }
    {
        self.states.remove(&call)
    }

    /// How many calls of a graph have no reply.
    pub fn count_of(&self, graph: u32) -> u32
        ensures { result ≡ count_of self.now graph }
    {
        match self.by_graph.get(&graph) {
            Some(count) => *count,
            None => 0,
        }
    }

    /// The oldest graph that has calls without a reply.
    pub fn oldest_graph(&self) -> Option<u32>
        ensures { result ≡ oldest_graph self.now }
    {
        match self.by_graph.first_key_value() {
            Some((graph, _)) => Some(*graph),
            None => None,
        }
    }

    // The reply of a call, if it was numbered, is at this place of the log.
    fn put_reply(&mut self, call: u32, at: usize)
        ensures { self.new ≡ record self.old { replies = put_reply self.old.replies call at } }
    {
        let Some(index) = (call as usize).checked_sub(1) else {
            return;
        };
        if let Some(reply) = self.replies.get_mut(index) {
            *reply = Some(at);
        }
    }

    /// The reply of a call is at this place of the log. It says whether it was the last one of its graph.
    pub fn replied(&mut self, call: u32, graph: u32, at: usize) -> bool
        ensures last { result ≡ is_last self.old graph }
        ensures reply { self.new ≡ with_reply self.old call graph at }
    {
        self.put_reply(call, at);
        let count = self.count_of(graph);
        if count <= 1 {
            self.by_graph.remove(&graph);
            return true;
        }
        if let Some(left) = self.by_graph.get_mut(&graph) {
            *left = count - 1;
        }
        false
    }

    /// Where the reply of a call is in the log.
    pub fn reply_at(&self, call: u32) -> Option<usize>
        ensures { result ≡ reply_in self.now.replies call }
    {
        let index = (call as usize).checked_sub(1)?;
        match self.replies.get(index) {
            Some(at) => *at,
            None => None,
        }
    }

    /// A call waits until the calls of older graphs are answered.
    ///
    /// # Errors
    /// Out of memory.
    pub fn park(&mut self, call: u32) -> Result<(), AllocError>
        ensures ok { OnOk result (self.new ≡ with_parked self.old call) }
        ensures err { OnErr result (self.new ≡ self.old) }
    {
        self.parked.insert(call)?;
        Ok(())
    }

    /// How many calls are parked.
    pub fn parked_len(&self) -> usize
        ensures { result ≡ length self.now.parked }
    {
        self.parked.len()
    }

    /// The first parked call from a number on.
    pub fn parked_from(&self, call: u32) -> Option<u32>
        ensures { result ≡ first_from self.now.parked call }
    {
        match self.parked.range(call..).next() {
            Some(found) => Some(*found),
            None => None,
        }
    }

    /// A call is parked no more.
    pub fn unpark(&mut self, call: u32)
        ensures { self.new ≡ without_parked self.old call }
    {
        self.parked.remove(&call);
    }
}
