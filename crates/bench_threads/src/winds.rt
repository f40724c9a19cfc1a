ghost use Rattle.std.specs.Prelude.{◌≡◌};
ghost use Rattle.wind_words.specs.declared.view.Role.TheVariants.{Hub};
ghost use Rattle.wind_words.specs.Calls.{IsSamePass, first_hub};

use std::alloc::{AllocError, Global};
use std::thread;
use std::thread::Threads;
use wind_words::{WindPass, WindWords};
use xlator_law::{Settled, WindNo};

/// How many words there are, each with a wind at turn 0.
pub const WINDS: u32 = 65536;

/// How many threads there are.
pub const THREADS: usize = 4;

// Opens the first wind of each slot.
fn open_all(words: &WindWords, hub: &mut WindPass)
    requires { hub.old ≡ record { words = words.now; view = first_hub } }
    ensures { IsSamePass hub.old hub.new }
{
    for slot in 0..words.count() {
        words.open(hub, slot);
    }
}

/// Settles the first wind of each slot, and gives how many it won.
pub fn settle_all(words: &WindWords, pass: &mut WindPass) -> u32
    requires { pass.old.words ≡ words.now }
    ensures { IsSamePass pass.old pass.new }
{
    let mut won = 0;
    for slot in 0..words.count() {
        if words.settle(pass, WindNo { slot, turn: 0 }) == Settled::Won {
            won += 1;
        }
    }
    won
}

// Bails the first wind of each slot, and gives how many it won.
fn bail_all(words: &WindWords, hub: &mut WindPass) -> u32
    requires words { hub.old.words ≡ words.now }
    requires hub { hub.old.view.role ≡ Hub }
    ensures { IsSamePass hub.old hub.new }
{
    let mut won = 0;
    for slot in 0..words.count() {
        if words.bail(hub, WindNo { slot, turn: 0 }) == Settled::Won {
            won += 1;
        }
    }
    won
}

// Collects the first wind of each slot, and gives how many there were to collect.
fn collect_all(words: &WindWords, hub: &mut WindPass) -> u32
    requires words { hub.old.words ≡ words.now }
    requires hub { hub.old.view.role ≡ Hub }
    ensures { IsSamePass hub.old hub.new }
{
    let mut collected = 0;
    for slot in 0..words.count() {
        if words.collect(hub, WindNo { slot, turn: 0 }) {
            collected += 1;
        }
    }
    collected
}

/// What a thread does with all winds.
#[derive(Clone, Copy)]
pub enum Act {
    Settle,
    Bail,
    Collect,
}

/// Does one thing with all winds, and gives for how many it came first.
pub fn act_on_all(words: &WindWords, hub: &mut WindPass, act: Act) -> u32
    requires words { hub.old.words ≡ words.now }
    requires hub { hub.old.view.role ≡ Hub }
    ensures { IsSamePass hub.old hub.new }
{
    match act {
        Act::Settle => settle_all(words, hub),
        Act::Bail => bail_all(words, hub),
        Act::Collect => collect_all(words, hub),
    }
}

/// Words with their hub's pass.
#[derive(Drop)]
pub struct Desk {
    words: WindWords,
    hub: WindPass,
    ghost of_words: { hub.words ≡ words },
    ghost is_hub: { hub.view.role ≡ Hub },
}

impl Desk {
    /// Words of which each has a wind that can be settled, bailed or collected.
    pub fn prepared(alloc: Global, act: Act) -> Result<Desk, AllocError> {
        let (words, mut hub) = WindWords::new(alloc, WINDS)?;
        open_all(&words, &mut hub);
        if let Act::Collect = act {
            settle_all(&words, &mut hub);
        }
        Ok(Desk { words, hub })
    }

    /// Does one thing with all winds.
    pub fn act(&mut self, act: Act) {
        act_on_all(&self.words, &mut self.hub, act);
    }

    /// The words and the hub's pass.
    pub fn into_parts(self) -> (WindWords, WindPass)
        ensures { (result.1.words ≡ result.0) × (result.1.view.role ≡ Hub) }
    {
        let Desk { words, hub } = self;
        (words, hub)
    }
}

/// A desk for each thread.
pub fn prepare(alloc: Global, desks: &mut Vec<Desk>, act: Act) -> Result<(), AllocError> {
    for _ in 0..THREADS {
        desks.push(Desk::prepared(alloc, act)?)?;
    }
    Ok(())
}

/// A thread for each of the words does one thing with all winds of its own.
pub fn act_on_each<R: Threads + Sync>(rt: &R, desks: &mut [Desk], act: Act) {
    thread::for_each_mut(rt, desks, THREADS, &|_, desk: &mut Desk| desk.act(act));
}
