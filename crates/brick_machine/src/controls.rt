//! Controls: connections, going down and coming up.
ghost use Rattle.std.specs.Prelude.{◌≡◌, [], Some, OnOk};
ghost use Rattle.brick_machine.specs.Controls.{connected, disconnected, late_after, gone_down, come_up as opened_again, faulted};
ghost use Rattle.brick_machine.specs.code.Outs.{put_out};

use crate::graphs::Graphs;
use crate::late::Late;
use crate::outs::Outs;
use crate::state::State;
use fop_types::{OutKind, Proc};
use std::alloc::{AllocError, Global};
use std::mem;

// A brick after a Down: one that was down serves no more requests late.
fn late_after(down: Option<Late>, serve: u32, graphs: Graphs) -> Late
    ensures { result ≡ late_after down serve graphs }
{
    match down {
        Some(mut late) => {
            drop(graphs);
            late.left = 0;
            late
        }
        None => Late {
            left: serve,
            graphs,
        },
    }
}

#[tactic(auto, using(crate::proofs::Puts::put_nothing, crate::proofs::Puts::put_both))]
impl State {
    /// Drops the graph's locks and descriptors, and connects it. On a brick that is down it does nothing.
    pub(crate) fn connect(
        &mut self,
        alloc: Global,
        outs: &mut Outs,
        graph: u32,
        version: u32,
    ) -> Result<(), AllocError>
        ensures state { OnOk result (self.new ≡ (connected self.old graph version).state) }
        ensures outs { OnOk result (outs.new ≡ put_out outs.old (connected self.old graph version).outs) }
        ensures names { self.new.store.names ≡ self.old.store.names }
    {
        if self.down.is_some() {
            return Ok(());
        }
        self.drop_graph(alloc, outs, graph)?;
        self.graphs.connect(alloc, graph)?;
        outs.put(alloc, OutKind::Connected { graph, version })
    }

    /// Drops the graph's locks and descriptors, and ends its connection.
    pub(crate) fn disconnect(
        &mut self,
        alloc: Global,
        outs: &mut Outs,
        graph: u32,
    ) -> Result<(), AllocError>
        ensures state { OnOk result (self.new ≡ (disconnected self.old graph).state) }
        ensures outs { OnOk result (outs.new ≡ put_out outs.old (disconnected self.old graph).outs) }
        ensures names { self.new.store.names ≡ self.old.store.names }
    {
        self.drop_graph(alloc, outs, graph)?;
        self.graphs.disconnect(graph);
        Ok(())
    }

    // Ends all connections; so many of their requests are served late, and none after a second Down.
    fn end_connections(&mut self, alloc: Global, serve: u32)
        ensures { self.new ≡ record self.old { graphs = []; down = Some (late_after self.old.down serve self.old.graphs) } }
    {
        let graphs = mem::replace(&mut self.graphs, Graphs::new(alloc));
        let late = late_after(self.down.take(), serve, graphs);
        drop(mem::replace(&mut self.down, Some(late)));
    }

    /// Drops all locks, descriptors and connections.
    pub(crate) fn go_down(
        &mut self,
        alloc: Global,
        outs: &mut Outs,
        serve: u32,
    ) -> Result<(), AllocError>
        ensures state { OnOk result (self.new ≡ (gone_down self.old serve).state) }
        ensures outs { OnOk result (outs.new ≡ put_out outs.old (gone_down self.old serve).outs) }
        ensures names { self.new.store.names ≡ self.old.store.names }
    {
        outs.put(alloc, OutKind::Closed)?;
        self.drop_locks(alloc, outs)?;
        self.end_connections(alloc, serve);
        Ok(())
    }

    /// Ends a Down, where there is one.
    pub(crate) fn come_up(&mut self, alloc: Global, outs: &mut Outs) -> Result<(), AllocError>
        ensures state { OnOk result (self.new ≡ (opened_again self.old).state) }
        ensures outs { OnOk result (outs.new ≡ put_out outs.old (opened_again self.old).outs) }
        ensures names { self.new.store.names ≡ self.old.store.names }
    {
        drop(self.down.take());
        outs.put(alloc, OutKind::Opened)
    }

    /// Names a request that is to fail.
    pub(crate) fn fault_at(&mut self, proc: Proc, number: u32) -> Result<(), AllocError>
        ensures state { OnOk result (self.new ≡ (faulted self.old proc number).state) }
        ensures names { self.new.store.names ≡ self.old.store.names }
    {
        self.faults.fail_at(proc, number)
    }
}
