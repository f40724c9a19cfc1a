ghost use Rattle.std.specs.Prelude.{◌≤◌};

use crate::layouts::Layout;
use crate::state::State;
use crate::volume::Volume;
use fop_types::Seq;

/// A fop under way over the sets of a volume, of which there is one at least.
#[derive(Drop)]
pub struct DhtFop {
    pub(crate) volume: Volume,
    pub(crate) learnt: Seq<Layout>,
    pub(crate) asked: Option<u8>,
    pub(crate) state: State,
    ghost some: { 1 ≤ volume.sets },
}
