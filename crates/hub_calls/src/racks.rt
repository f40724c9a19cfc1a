ghost use Rattle.std.specs.Prelude.{◌≡◌, []};
ghost use Rattle.mount_log.specs.Logs.{empty_log};

use brick_machine::Brick;
use fop_types::Seq;
use mount_log::Log;
use std::alloc::Global;

/// What a run leaves: its bricks, each with its journal, its outputs and its store, and the log.
#[derive(Drop)]
pub struct Rack {
    pub bricks: Seq<Brick>,
    pub log: Log,
}

impl Rack {
    /// The rack before a run: no bricks, and an empty log. It takes no memory.
    pub fn new(alloc: Global) -> Rack
        ensures { result ≡ record { bricks = []; log = empty_log } }
    {
        Rack {
            bricks: Seq::new(alloc),
            log: Log::new(alloc),
        }
    }
}
