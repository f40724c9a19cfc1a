//! The run that is audited.
ghost use Rattle.change_audit.specs.CallGraphs.{AreGraphsOf};

use crate::found::Found;
use brick_machine::Brick;
use change_audit::call_graphs::CallGraphs;
use graph_build::Plan;
use mount_log::Log;
use script_lang::Script;

/// A run that is audited: what it was to do, what it has left, and the tables by which that is looked up.
#[derive(Clone, Copy)]
pub(crate) struct Run<'a> {
    /// The sessions with their calls, and the bricks and volfiles that they are to use.
    pub script: &'a Script,
    /// The plan of each of the script's volfiles.
    pub plans: &'a [Plan],
    /// The log of the mount.
    pub log: &'a Log,
    /// The bricks, each with its journal, by the script's numbers.
    pub bricks: &'a [Brick],
    /// The graph of each call, and the volfile of each graph.
    pub graphs: &'a CallGraphs,
    /// The locks and the fetches of each call that were found in the log. Nothing is said of them.
    pub found: &'a Found,
    ghost graphs_are: { AreGraphsOf script.now log.now graphs.now },
}
