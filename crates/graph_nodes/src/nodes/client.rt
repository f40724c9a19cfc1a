//! The client of a brick: the end of a graph towards it. A request goes out where the connection that it needs is open;
//! its message is made once its wind is open. Else it is answered as gone, and no wind to the brick is opened.
ghost use Rattle.std.specs.Prelude.{IfOk};
ghost use Rattle.graph_nodes.specs.Client.{gone, enter_of, resume_of};
ghost use Rattle.graph_nodes.specs.Moves.{IsMove};

use crate::kinds::BrickClient;
use crate::locals::Local;
use crate::nodes::one;
use graph_items::{BrickReply, Clients, Down, Request, Up};
use std::alloc::{AllocError, Global};
use xlator_law::Step;

impl BrickClient {
    // The answer where no connection to the brick is open, or another one than the request needs.
    fn gone(&self, clients: &Clients) -> Step<Down, Up, Local>
        ensures { IsMove (gone clients.now self.now.brick) result }
    {
        let mark = clients.last(self.brick) as u64;
        Step::Unwind(Up::Brick(BrickReply::gone(mark)))
    }

    /// Takes a request.
    ///
    /// # Errors
    /// Out of memory.
    pub(crate) fn enter(
        &self,
        alloc: Global,
        clients: &Clients,
        down: Down,
    ) -> Result<Step<Down, Up, Local>, AllocError>
        ensures { IfOk result (λ step. IsMove (enter_of clients.now self.now.brick down) step) }
    {
        match down {
            Down::Request(request) => self.enter_request(alloc, clients, request),
            Down::Fop(op) => {
                drop(op);
                Ok(self.gone(clients))
            }
            Down::Job(job) => {
                drop(job);
                Ok(self.gone(clients))
            }
        }
    }

    // A request goes out over the connection that it needs, where that is open.
    fn enter_request(
        &self,
        alloc: Global,
        clients: &Clients,
        request: Request,
    ) -> Result<Step<Down, Up, Local>, AllocError>
        ensures { IfOk result (λ step. IsMove (enter_of clients.now self.now.brick (Down.Request request)) step) }
    {
        if clients.reaches(self.brick, request.bound()) {
            one(alloc, 0, Down::Request(request), Local::Relay)
        } else {
            drop(request);
            Ok(self.gone(clients))
        }
    }
}

/// Hands a reply back.
pub(crate) fn resume(reply: Up) -> Step<Down, Up, Local>
    ensures { IsMove (resume_of reply) result }
{
    Step::Unwind(reply)
}
