ghost use Rattle.std.specs.Prelude.{◌≡◌, [], ◌∷◌, Some};
ghost use Rattle.fop_types.specs.Calls.{looked_up};
ghost use Rattle.fop_types.specs.Flat.{flat_answer};
ghost use Rattle.fop_types.specs.Paths.{parent_parts};
ghost use Rattle.flat_fs.specs.Mount.{path_walk, paths_walk};
ghost use Rattle.flat_fs.specs.Walks.{found_in, IsLed, IsWalked};

use crate::flat_fs::FlatFs;
use fop_types::{AppError, Call, FlatOp, Gfid, Path, Seq};

/// The objects that a call's paths led to.
#[derive(Clone, Copy)]
pub enum Found {
    Nothing,
    One(Gfid),
    Two(Gfid, Gfid),
}

// The components before the last one.
fn parent(path: &Path) -> &[Seq<u8>]
    ensures { result.now ≡ parent_parts path.now.parts }
{
    let parts = path.parts.as_slice();
    if parts.is_empty() {
        return parts;
    }
    &parts[..parts.len() - 1]
}

impl FlatFs {
    // The object of a name in a directory, or the error of the look-up.
    fn child(&self, parent: Gfid, name: &[u8]) -> Result<Gfid, AppError>
        ensures { found_in (flat_answer self.now (FlatOp.Lookup parent name.now)) ≡ Some result }
    {
        match self.named(parent, name) {
            Ok(item) => Ok(item.gfid),
            Err(error) => Err(error),
        }
    }

    #[tactic(auto, using(crate::proofs::Walks::at_start, crate::proofs::Walks::found_next, crate::proofs::Walks::not_found, crate::proofs::Walks::all_found))]
    // Each name is looked up in the object that the one before it led to, the first in the root.
    fn walk_path(&self, path: &[Seq<u8>]) -> Result<Gfid, AppError>
        ensures { IsLed result (path_walk self.now path.now) }
    {
        let mut at = Gfid { hi: 0, lo: 1 };
        for name in path {
            match self.child(at, name.as_slice()) {
                Ok(gfid) => at = gfid,
                Err(error) => return Err(error),
            }
        }
        Ok(at)
    }

    #[tactic(auto, using(crate::proofs::Walks::stopped_here))]
    fn walk_one(&self, path: &[Seq<u8>]) -> Result<Found, AppError>
        ensures { IsWalked result (paths_walk self.now (path.now ∷ [])) }
    {
        match self.walk_path(path) {
            Ok(gfid) => Ok(Found::One(gfid)),
            Err(error) => Err(error),
        }
    }

    #[tactic(auto, using(crate::proofs::Walks::stopped_here, crate::proofs::Walks::stopped_later))]
    fn walk_two(&self, path: &[Seq<u8>], other: &[Seq<u8>]) -> Result<Found, AppError>
        ensures { IsWalked result (paths_walk self.now (path.now ∷ other.now ∷ [])) }
    {
        match self.walk_path(path) {
            Err(error) => Err(error),
            Ok(gfid) => match self.walk_path(other) {
                Ok(second) => Ok(Found::Two(gfid, second)),
                Err(error) => Err(error),
            },
        }
    }

    /// Looks up what a call's paths name.
    pub(crate) fn walk(&self, call: &Call) -> Result<Found, AppError>
        ensures { IsWalked result (paths_walk self.now (looked_up call.now)) }
    {
        match call {
            Call::Mkdir { path, .. } => self.walk_one(parent(path)),
            Call::Rmdir { path } => self.walk_one(parent(path)),
            Call::Create { path, .. } => self.walk_one(parent(path)),
            Call::Unlink { path } => self.walk_one(parent(path)),
            Call::Rename { path, target } => self.walk_two(parent(path), parent(target)),
            Call::Open { path, .. } => self.walk_one(path.parts.as_slice()),
            Call::Stat { path } => self.walk_one(path.parts.as_slice()),
            Call::List { path } => self.walk_one(path.parts.as_slice()),
            Call::Chmod { path, .. } => self.walk_one(path.parts.as_slice()),
            Call::Truncate { path, .. } => self.walk_one(path.parts.as_slice()),
            Call::SetAttr { path, .. } => self.walk_one(path.parts.as_slice()),
            Call::GetAttr { path, .. } => self.walk_one(path.parts.as_slice()),
            Call::DelAttr { path, .. } => self.walk_one(path.parts.as_slice()),
            Call::Read { .. } => Ok(Found::Nothing),
            Call::Write { .. } => Ok(Found::Nothing),
            Call::Seek { .. } => Ok(Found::Nothing),
            Call::Close { .. } => Ok(Found::Nothing),
        }
    }
}
