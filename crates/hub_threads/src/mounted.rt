ghost use Rattle.std.specs.Prelude.{◌≡◌, IfOk, OnErr};
ghost use Rattle.mount_log.specs.Scripts.{IsScript};

use crate::desk::{Desk, Ended};
use crate::gate::Gate;
use crate::idle::Idle;
use crate::mounting::Mounting;
use crate::places::{Places, Post, bricks_of, places_of};
use crate::side::BrickSide;
use fop_types::Seq;
use graph_build::Plan;
use hub_calls::Rack;
use script_lang::Script;
use std::alloc::{AllocError, Global};
use std::marker::Brand;
use std::sync::atomic::{AtomicBool, Ordering};
use std::sync::{Mutex, Wait};
use std::thread::Threads;
use std::time::Clock;
use std::{mem, thread};
use xlator_law::Stop;

// Takes the hub's turns until the log is finished, or somebody stopped.
fn work<M: Mounting, R: Wait + Clock>(
    rt: &R,
    alloc: Global,
    desk: &Mutex<Desk<M>>,
    ended: &AtomicBool,
) {
    let mut idle = Idle::new();
    for _ in rt.forever() {
        if ended.load(Ordering::SeqCst) {
            return;
        }
        let (did, over) = take_turn(rt, alloc, desk);
        if over {
            ended.store(true, Ordering::SeqCst);
            return;
        }
        if did {
            idle.end();
        } else {
            idle.wait(rt);
        }
    }
}

// One turn under the lock: whether something was done, and whether no turn is left.
fn take_turn<M: Mounting, R: Wait>(rt: &R, alloc: Global, desk: &Mutex<Desk<M>>) -> (bool, bool) {
    let mut desk = desk.lock(rt);
    let did = desk.turn(alloc);
    (did, desk.has_ended())
}

// Serves a brick until the log is finished, or somebody stopped.
fn own<R: Wait + Clock, G: Gate>(
    rt: &R,
    alloc: Global,
    side: &mut BrickSide,
    gate: &G,
    ended: &AtomicBool,
) {
    let mut idle = Idle::new();
    for _ in rt.forever() {
        if ended.load(Ordering::SeqCst) {
            return;
        }
        match side.turn(alloc, gate) {
            Ok(true) => idle.end(),
            Ok(false) => idle.wait(rt),
            Err(_) => {
                ended.store(true, Ordering::SeqCst);
                return;
            }
        }
    }
}

// Goes on in one thread until the log is finished or somebody stops. It is false where a brick ran out of memory.
fn go_on_alone<M: Mounting, R: Wait, G: Gate>(
    rt: &R,
    alloc: Global,
    desk: &mut Desk<M>,
    posts: &mut [Post],
    gate: &G,
) -> bool {
    for _ in rt.forever() {
        if desk.has_ended() {
            return true;
        }
        desk.turn(alloc);
        for post in posts.iter_mut() {
            if let Post::Owner(side) = post {
                if side.turn(alloc, gate).is_err() {
                    return false;
                }
            }
        }
    }
    true
}

/// What a mount gives back: the script that it ran, with the plans of its volfiles, and whether a further wind was needed
/// where 4,294,967,295 were opened.
#[derive(Drop)]
pub struct Ran {
    pub script: Script,
    pub plans: Seq<Plan>,
    pub is_out_of_winds: bool,
}

// A thread does what its post is.
fn take_post<M: Mounting, R: Wait + Clock, G: Gate>(
    rt: &R,
    alloc: Global,
    post: &mut Post,
    desk: &Mutex<Desk<M>>,
    gate: &G,
    ended: &AtomicBool,
) {
    match post {
        Post::Worker => work(rt, alloc, desk, ended),
        Post::Owner(side) => own(rt, alloc, side, gate, ended),
    }
}

// Each post has a thread, until the log is finished or somebody stopped.
fn run_threads<M: Mounting + Send + Sync, R: Threads + Wait + Clock + Sync, G: Gate + Sync>(
    rt: &R,
    alloc: Global,
    desk: Desk<M>,
    posts: &mut [Post],
    gate: &G,
) -> Desk<M> {
    let desk = Mutex::new(desk);
    let ended = AtomicBool::new(false);
    let count = posts.len().max(1);
    thread::for_each_mut(
        rt,
        posts,
        count,
        &|_, post: &mut Post| { take_post(rt, alloc, post, &desk, gate, &ended) },
    );
    desk.into_inner()
}

// Whether a run needed a further wind; an error where it ran out of memory.
fn ran_out(stop: Option<Stop>, whole: bool) -> Result<bool, AllocError> {
    match stop {
        Some(Stop::Winds) => Ok(true),
        Some(Stop::Mem) => Err(AllocError),
        None => { if whole { Ok(false) } else { Err(AllocError) } }
    }
}

// What a run has left goes into the rack, but for one that ran out of memory.
fn put_left(
    ended: Result<bool, AllocError>,
    script: Script,
    plans: Seq<Plan>,
    left: Rack,
    rack: &mut Rack,
) -> Result<Ran, AllocError>
    ensures kept { IfOk result (λ ran. (ran.script ≡ script) × (ran.plans ≡ plans)) }
    ensures memory { OnErr result (rack.new ≡ rack.old) }
{
    match ended {
        Ok(is_out_of_winds) => {
            drop(mem::replace(rack, left));
            Ok(Ran {
                script,
                plans,
                is_out_of_winds,
            })
        }
        Err(error) => {
            drop(left);
            drop(script);
            drop(plans);
            Err(error)
        }
    }
}

fn leave(
    alloc: Global,
    ended: Ended,
    posts: Vec<Post>,
    whole: bool,
    rack: &mut Rack,
) -> Result<Ran, AllocError>
    ensures kept { IfOk result (λ ran. (ran.script ≡ ended.script) × (ran.plans ≡ ended.plans)) }
    ensures memory { OnErr result (rack.new ≡ rack.old) }
{
    let Ended {
        script,
        plans,
        log,
        stop,
    } = ended;
    match bricks_of(alloc, posts) {
        Ok(bricks) => put_left(
            ran_out(stop, whole),
            script,
            plans,
            Rack { bricks, log },
            rack,
        ),
        Err(error) => {
            drop(log);
            drop(script);
            drop(plans);
            Err(error)
        }
    }
}

// The mount of the script that was picked.
fn mount_picked<M: Mounting + Send + Sync, R: Threads + Wait + Clock + Sync, G: Gate + Sync>(
    rt: &R,
    alloc: Global,
    script: Script,
    plans: Seq<Plan>,
    workers: u8,
    gate: &G,
    rack: &mut Rack,
) -> Result<Ran, AllocError>
    requires script { IsScript script plans }
    requires picked { (script ≡ M.script) × (plans ≡ M.plans) }
    ensures kept { IfOk result (λ ran. (ran.script ≡ M.script) × (ran.plans ≡ M.plans)) }
    ensures memory { OnErr result (rack.new ≡ rack.old) }
{
    match places_of(alloc, &script, plans.as_slice(), workers) {
        Ok(Places { ends, posts }) => {
            let mut posts = posts;
            match Desk::<M>::new(alloc, script, plans, ends) {
                Ok(desk) => {
                    let mut desk = run_threads(rt, alloc, desk, posts.as_mut_slice(), gate);
                    let whole = go_on_alone(rt, alloc, &mut desk, posts.as_mut_slice(), gate);
                    leave(alloc, desk.into_ended(), posts, whole, rack)
                }
                Err(error) => {
                    drop(posts);
                    Err(error)
                }
            }
        }
        Err(error) => {
            drop(script);
            drop(plans);
            Err(error)
        }
    }
}

/// Runs a script, which is one that `script_lang::parse` gives, with the plans of its volfiles, by one thread for each
/// brick and so many that take the hub's turns, one where that is 0. The rack, which is empty, has the bricks and the log
/// afterwards, also where the winds ran out, and the script is given back with its plans.
///
/// # Errors
/// Out of memory, and the rack is as it was.
pub fn mount<R: Threads + Wait + Clock + Sync, G: Gate + Sync>(
    rt: &R,
    alloc: Global,
    script: Script,
    plans: Seq<Plan>,
    workers: u8,
    gate: &G,
    rack: &mut Rack,
) -> Result<Ran, AllocError>
    requires { IsScript script plans }
    ensures kept { IfOk result (λ ran. (ran.script ≡ script) × (ran.plans ≡ plans)) }
    ensures memory { OnErr result (rack.new ≡ rack.old) }
{
    mount_picked::<Brand, R, G>(rt, alloc, script, plans, workers, gate, rack)
}
