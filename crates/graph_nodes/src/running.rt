//! The run of a graph's tasks, and what comes out of it.
ghost use Rattle.std.specs.Prelude.{ℕ, ◌≡◌, ◌+◌, ◌++◌, [], map, IfOk, OnOk, OnErr, IsErrOf};
ghost use Rattle.std.specs.List.{flat_map};
ghost use Rattle.frame_driver.specs.Waits.{times};
ghost use Rattle.graph_nodes.specs.Calls.{running, Here, Gives, EndsEarly, moved_of, moved_with, taken_from, hold_of, answer_by, answers_in};
ghost use Rattle.graph_nodes.specs.Live.{AreOnce, HasWork, KeepsGraph, Settles, shown};

use crate::context::{Context, HoldWait};
use crate::graph::Graph;
use crate::kinds::Node;
use crate::locals::Local;
use crate::moved::{HoldAsk, Moved};
use crate::outer::AtBrick;
use crate::parked::park;
use crate::sending::take_sends;
use fop_types::{FopAnswer, Seq};
use frame_driver::{Answered, Board, Queue};
use graph_items::{Down, Up};
use std::alloc::{AllocError, Global};
use std::collections::{BTreeMap, BTreeSet};
use xlator_law::Stop;

impl Graph {
    // Does all tasks, and takes what came out of them. The graph has the mount's stack.
    pub(crate) fn run(&mut self, alloc: Global, parked: &mut BTreeSet<u32>) -> Result<Moved, Stop>
        requires work { HasWork self.old parked.old.keys }
        ensures kept { KeepsGraph self.old self.new }
        ensures well { OnOk result (Settles self.old parked.old.keys self.new parked.new.keys) }
        ensures gives { IfOk result (λ moved. Gives (Here self.old) self.old moved (running self.new)) }
        ensures winds { IsErrOf result Stop.Winds → EndsEarly (Here self.old) self.old (running self.new) }
    {
        self.board
            .run(alloc, &mut self.nodes, &mut self.cx, &self.wiring)?;
        let moved = collect(
            alloc,
            self.nodes.as_slice(),
            &mut self.board,
            &mut self.cx,
            &mut self.waits,
            &mut self.outer,
            parked,
        )?;
        Ok(moved)
    }
}

// What came out of a run. Frames that began to wait are parked.
fn collect(
    alloc: Global,
    nodes: &[Node],
    board: &mut Board<Down, Up, Local>,
    cx: &mut Context,
    waits: &mut BTreeMap<u32, u32>,
    outer: &mut Vec<AtBrick>,
    parked: &mut BTreeSet<u32>,
) -> Result<Moved, AllocError>
    requires once { AreOnce board.old.waiting parked.old.keys }
    ensures board { OnOk result (board.new ≡ shown board.old) }
    ensures cx { OnOk result (cx.new ≡ taken_from cx.old) }
    ensures moved { IfOk result (λ moved. moved ≡ moved_of (record { nodes = nodes.now; cx = cx.old; board = board.old })) }
    ensures parked { OnOk result ((key : ℕ) → times key parked.new.keys ≡ times key board.old.waiting + times key parked.old.keys) }
    ensures err { OnErr result ((board.new.graph ≡ board.old.graph) × (board.new.stack ≡ board.old.stack)) }
{
    let mut moved = Moved {
        holds: Seq::new(alloc),
        sends: Seq::new(alloc),
        answers: Seq::new(alloc),
        copies: Seq::new(alloc),
        skips: Seq::new(alloc),
        winds: Seq::new(alloc),
    };
    let collected = collect_into(alloc, nodes, board, cx, waits, outer, parked, &mut moved);
    collected.and(Ok(moved))
}

// Puts what came out behind the lists of `moved`; `winds` is replaced.
fn collect_into(
    alloc: Global,
    nodes: &[Node],
    board: &mut Board<Down, Up, Local>,
    cx: &mut Context,
    waits: &mut BTreeMap<u32, u32>,
    outer: &mut Vec<AtBrick>,
    parked: &mut BTreeSet<u32>,
    moved: &mut Moved,
) -> Result<(), AllocError>
    requires once { AreOnce board.old.waiting parked.old.keys }
    ensures board { OnOk result (board.new ≡ shown board.old) }
    ensures cx { OnOk result (cx.new ≡ taken_from cx.old) }
    ensures moved { OnOk result (moved.new ≡ moved_with moved.old (record { nodes = nodes.now; cx = cx.old; board = board.old })) }
    ensures parked { OnOk result ((key : ℕ) → times key parked.new.keys ≡ times key board.old.waiting + times key parked.old.keys) }
    ensures err { OnErr result ((board.new.graph ≡ board.old.graph) × (board.new.stack ≡ board.old.stack)) }
{
    take_sends(
        alloc,
        nodes,
        &mut cx.clients,
        outer,
        &mut board.sent,
        &mut moved.sends,
    )?;
    take_holds(&mut cx.holds, waits, &mut moved.holds)?;
    park(&mut board.waiting, parked)?;
    take_ended(board, cx, moved)
}

// The answers, the copies and the skips, and the lines of the winds.
fn take_ended(
    board: &mut Board<Down, Up, Local>,
    cx: &mut Context,
    moved: &mut Moved,
) -> Result<(), AllocError>
    ensures board { OnOk result (board.new ≡ record board.old { answers = []; stack = record board.old.stack { lines = [] } }) }
    ensures cx { OnOk result (cx.new ≡ record cx.old { copies = []; skips = [] }) }
    ensures moved { OnOk result (moved.new ≡ record moved.old { answers = moved.old.answers ++ flat_map answers_in board.old.answers; copies = moved.old.copies ++ cx.old.copies; skips = moved.old.skips ++ cx.old.skips; winds = board.old.stack.lines }) }
    ensures err { OnErr result ((board.new.graph ≡ board.old.graph) × (board.new.stack ≡ board.old.stack)) }
{
    take_answers(&mut board.answers, &mut moved.answers)?;
    take_all(&mut cx.copies, &mut moved.copies)?;
    take_all(&mut cx.skips, &mut moved.skips)?;
    moved.winds = Seq::from_vec(board.stack.lines());
    Ok(())
}

// The calls that ask for a hold. Each one's frame goes on once it is granted.
fn take_holds(
    asked: &mut Queue<HoldWait>,
    waits: &mut BTreeMap<u32, u32>,
    holds: &mut Seq<(u32, HoldAsk)>,
) -> Result<(), AllocError>
    ensures asked { OnOk result (asked.new ≡ []) }
    ensures holds { OnOk result (holds.new ≡ holds.old ++ map hold_of asked.old) }
{
    while let Some(wait) = asked.pop() {
        waits.insert(wait.call, wait.frame)?;
        holds.push((wait.call, HoldAsk::Extend(wait.gfid)))?;
    }
    Ok(())
}

// The answers of fops, with their places. The root gives nothing else; another reply would be no answer.
fn take_answers(
    came: &mut Queue<Answered<Up>>,
    answers: &mut Seq<(u32, FopAnswer, u32)>,
) -> Result<(), AllocError>
    ensures came { OnOk result (came.new ≡ []) }
    ensures answers { OnOk result (answers.new ≡ answers.old ++ flat_map answers_in came.old) }
{
    while let Some(answered) = came.pop() {
        push_answer(answered, answers)?;
    }
    Ok(())
}

#[tactic(auto, using(crate::proofs::Giving::none_more))]
fn push_answer(
    answered: Answered<Up>,
    answers: &mut Seq<(u32, FopAnswer, u32)>,
) -> Result<(), AllocError>
    ensures { OnOk result (answers.new ≡ answers.old ++ answers_in answered) }
{
    match answer_of(answered) {
        Some(answer) => {
            answers.push(answer)?;
            Ok(())
        }
        None => Ok(()),
    }
}

fn answer_of(answered: Answered<Up>) -> Option<(u32, FopAnswer, u32)>
    ensures { result ≡ answer_by answered.call answered.reply }
{
    let call = answered.call;
    match answered.reply {
        Up::Answer(answer, place) => match place {
            Some(place) => Some((call, answer, place)),
            None => {
                drop(answer);
                None
            }
        },
        Up::Set(said) => {
            drop(said);
            None
        }
        Up::Brick(said) => {
            drop(said);
            None
        }
    }
}

// All items of a queue.
fn take_all<T: Drop>(queue: &mut Queue<T>, items: &mut Seq<T>) -> Result<(), AllocError>
    ensures queue { OnOk result (queue.new ≡ []) }
    ensures items { OnOk result (items.new ≡ items.old ++ queue.old) }
{
    while let Some(item) = queue.pop() {
        items.push(item)?;
    }
    Ok(())
}
