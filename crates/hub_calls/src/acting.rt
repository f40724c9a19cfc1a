//! Moves of actions.
ghost use Rattle.std.specs.Prelude.{ℕ, ◌≡◌, ◌∷◌, [], true, is_some, IsSome, OnOk, IfErr, length, slice_get};
ghost use Rattle.mount_log.specs.Connects.{control_input};
ghost use Rattle.hub_calls.specs.Hubs.{AddsInput, is_of_brick as of_brick};
ghost use Rattle.hub_calls.specs.Live.{HasNoGraphs, volfiles_in};

use crate::parts::Parts;
use crate::planned::Planned;
use fop_types::{Fop, OpenFd, Proc, Seq};
use graph_switch::{Reopen, reopen_list};
use hub_tables::fd_number;
use script_lang::{Action, Script};
use std::alloc::{AllocError, Global};
use xlator_law::Stop;

/// Whether an action is of one of the script's bricks, and, if it is a fault, of a request that may fail.
pub(crate) fn is_of_brick(script: &Script, action: Action) -> bool
    ensures { result ≡ of_brick (length script.now.bricks) action }
{
    let many = script.bricks.len();
    match action {
        Action::Down(brick, _) => (brick as usize) < many,
        Action::Up(brick) => (brick as usize) < many,
        Action::Cut(brick) => (brick as usize) < many,
        Action::Fault(brick, proc, number) => {
            (brick as usize) < many && proc != Proc::Unlock && number > 0
        }
        Action::Heal => false,
        Action::Switch(_) => false,
    }
}

/// Whether an action is carried out by an input that its brick is sent, so that the hub has nothing else to do.
pub(crate) fn has_input(action: Action) -> bool
    ensures { result ≡ is_some (control_input action) }
{
    match action {
        Action::Down(_, _) => true,
        Action::Up(_) => true,
        Action::Fault(_, _, _) => true,
        Action::Cut(_) => false,
        Action::Heal => false,
        Action::Switch(_) => false,
    }
}

impl Parts {
    /// An action is carried out. A heal and a switch find no internal call under way, and begin one.
    ///
    /// # Errors
    /// As for `Hub::submit`.
    pub(crate) fn carry_out(
        &mut self,
        alloc: Global,
        on: &Planned,
        action: Action,
    ) -> Result<(), Stop>
        ensures input { OnOk result ((many : ℕ) → of_brick many action ≡ true → AddsInput 0 (control_input action) self.old.turn.lines self.new.turn.lines) }
        ensures stops { is_some (control_input action) ≡ true → IfErr result (λ stop. stop ≡ Stop.Mem) }
    {
        match action {
            Action::Down(brick, serve) => {
                self.turn.send_down(alloc, brick, serve)?;
                Ok(())
            }
            Action::Up(brick) => {
                self.turn.send_up(alloc, brick)?;
                Ok(())
            }
            Action::Cut(brick) => self.cut(alloc, brick),
            Action::Fault(brick, proc, number) => {
                self.turn.send_fault(alloc, brick, proc, number)?;
                Ok(())
            }
            Action::Heal => self.internal_call(
                alloc,
                Fop::Heal {
                    count: self.creations,
                },
            ),
            Action::Switch(volfile) => self.switch(alloc, on, volfile),
        }
    }

    // An internal call sends its fop in the newest graph. No internal call is under way.
    fn internal_call(&mut self, alloc: Global, fop: Fop) -> Result<(), Stop> {
        self.enter(alloc, self.graphs.live.newest, 0, fop)
    }

    // The pages of the newest graph go; the next graph is made and connected, and an internal call opens the descriptors
    // there.
    fn switch(&mut self, alloc: Global, on: &Planned, volfile: u8) -> Result<(), Stop> {
        self.graphs.nodes.retire(self.graphs.live.newest);
        self.make_graph(alloc, on, volfile)?;
        let fds = self.open_fds(alloc)?;
        self.internal_call(alloc, Fop::Migrate { fds })
    }

    /// The next graph is made from the plan of a volfile, and connected to its bricks. The plan follows that of the newest
    /// graph, if there is one.
    ///
    /// # Errors
    /// Out of memory.
    pub(crate) fn make_graph(
        &mut self,
        alloc: Global,
        on: &Planned,
        volfile: u8,
    ) -> Result<(), AllocError>
        ensures first { OnOk result (HasNoGraphs self.old.graphs.live → IsSome (slice_get on.now.plans volfile) → volfiles_in self.new.graphs.live.graphs.entries ≡ (1, volfile) ∷ []) }
    {
        if let Some(plan) = on.plan(volfile) {
            self.graphs.make(alloc, plan, volfile)?;
        }
        self.connect_newest(alloc, on)
    }

    // The open descriptors, as a new graph opens them again.
    fn open_fds(&self, alloc: Global) -> Result<Seq<OpenFd>, AllocError> {
        let list = reopen_list(alloc, &self.fds)?;
        let mut fds = Seq::new(alloc);
        let added = add_fds(&mut fds, list.as_slice());
        drop(list);
        added.and(Ok(fds))
    }
}

fn add_fds(fds: &mut Seq<OpenFd>, list: &[Reopen]) -> Result<(), AllocError> {
    for open in list {
        fds.push(OpenFd {
            fd: fd_number(open.session, open.fd),
            gfid: open.gfid,
            set: open.set,
        })?;
    }
    Ok(())
}
