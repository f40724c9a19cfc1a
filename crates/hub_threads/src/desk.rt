ghost use Rattle.std.specs.Prelude.{◌≡◌};
ghost use Rattle.mount_log.specs.Scripts.{IsScript};

use crate::links::Links;
use crate::mounting::Mounting;
use brick_link::HubEnd;
use fop_types::Seq;
use graph_build::Plan;
use hub_calls::{Due, Hub, Log, Turned};
use script_lang::Script;
use std::alloc::{AllocError, Global};
use std::marker::PhantomData;
use xlator_law::Stop;

/// What the workers share under a lock: the hub, which runs the script of the mount, and its ends of the links. It is not
/// dropped: what the run leaves is taken out of it, by [`Desk::into_ended`].
pub struct Desk<M: Mounting> {
    hub: Hub,
    links: Links,
    stop: Option<Stop>,
    of: PhantomData<M>,
    ghost runs: { (hub.script ≡ M.script) × (hub.plans ≡ M.plans) },
}

/// What a run leaves beside its bricks: the script, the plans of its volfiles, the log, and why the hub stopped, if it did.
#[derive(Drop)]
pub struct Ended {
    pub script: Script,
    pub plans: Seq<Plan>,
    pub log: Log,
    pub stop: Option<Stop>,
}

impl<M: Mounting> Desk<M> {
    /// The hub of a script, with its ends of the links. What it sends at the start is in them.
    ///
    /// # Errors
    /// Out of memory.
    pub fn new(
        alloc: Global,
        script: Script,
        plans: Seq<Plan>,
        ends: Vec<HubEnd>,
    ) -> Result<Desk<M>, AllocError>
        requires script { IsScript script plans }
        requires picked { (script ≡ M.script) × (plans ≡ M.plans) }
    {
        let mut links = Links::new(alloc, ends);
        match Hub::new(alloc, script, plans) {
            Ok(hub) => {
                let sent = links.send(alloc, hub.log().sent.as_slice());
                let desk = Desk {
                    hub,
                    links,
                    stop: None,
                    of: PhantomData,
                };
                match sent {
                    Ok(()) => Ok(desk),
                    Err(error) => {
                        drop(desk.into_ended());
                        Err(error)
                    }
                }
            }
            Err(error) => {
                drop(links);
                Err(error)
            }
        }
    }

    fn act(&mut self, alloc: Global, due: Due) -> Result<bool, Stop> {
        match due {
            Due::Submit(session) => self.hub.submit(alloc, session),
            Due::Run(graph, task) => self.hub.run(alloc, graph, task),
            Due::Act(action) => self.hub.act(alloc, action),
            Due::Arm(brick, proc, count, action) => self.hub.arm(alloc, brick, proc, count, action),
        }
    }

    // What goes before everything else, else the first output that has arrived or the first ready task, else what is due,
    // else the first control that is left.
    fn event(&mut self, alloc: Global) -> Result<bool, Stop> {
        if let Some(due) = self.hub.first() {
            return self.act(alloc, due);
        }
        if self.hub.turn(alloc, &mut self.links.inbox)? == Turned::Did {
            return Ok(true);
        }
        if let Some(due) = self.hub.due(0) {
            return self.act(alloc, due);
        }
        match self.hub.rest() {
            Some(due) => self.act(alloc, due),
            None => Ok(false),
        }
    }

    fn go_on(&mut self, alloc: Global) -> Result<bool, Stop> {
        self.links.receive()?;
        let did = self.event(alloc)?;
        self.links.send(alloc, self.hub.log().sent.as_slice())?;
        Ok(did)
    }

    /// Takes one turn: an event, if one is enabled. It is false where none was.
    pub fn turn(&mut self, alloc: Global) -> bool {
        if self.has_ended() {
            return false;
        }
        match self.go_on(alloc) {
            Ok(did) => did,
            Err(stop) => {
                self.stop = Some(stop);
                false
            }
        }
    }

    /// Whether no turn is to be taken any more: the log is finished, or the hub stopped.
    pub fn has_ended(&self) -> bool {
        self.stop.is_some() || self.hub.is_finished()
    }

    /// What the run leaves.
    pub fn into_ended(self) -> Ended
        ensures { (result.script ≡ M.script) × (result.plans ≡ M.plans) }
    {
        let Desk {
            hub,
            links,
            stop,
            of: _,
        } = self;
        drop(links);
        let (script, plans, log) = hub.into_log();
        Ended {
            script,
            plans,
            log,
            stop,
        }
    }
}
