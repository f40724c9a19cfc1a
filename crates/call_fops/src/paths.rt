ghost use Rattle.std.specs.Prelude.{◌≡◌};
ghost use Rattle.fop_types.specs.Calls.{looked_up};
ghost use Rattle.fop_types.specs.Paths.{parent_parts};
ghost use Rattle.call_fops.specs.Walks.{first_path as first_of, second_path as second_of};

use fop_types::{Call, Path, Seq};

#[tactic(auto, using(crate::proofs::Components::parent_is))]
// The components before the last one.
fn parent(path: &Path) -> &[Seq<u8>]
    ensures { result.now ≡ parent_parts path.now.parts }
{
    let parts = path.parts.as_slice();
    if parts.is_empty() {
        return parts;
    }
    &parts[..parts.len() - 1]
}

/// The components of a call's first path that are looked up, none where it has no path.
pub fn first_path(call: &Call) -> &[Seq<u8>]
    ensures { result.now ≡ first_of (looked_up call.now) }
{
    match call {
        Call::Mkdir { path, .. } => parent(path),
        Call::Rmdir { path } => parent(path),
        Call::Create { path, .. } => parent(path),
        Call::Unlink { path } => parent(path),
        Call::Rename { path, .. } => parent(path),
        Call::Open { path, .. } => path.parts.as_slice(),
        Call::Stat { path } => path.parts.as_slice(),
        Call::List { path } => path.parts.as_slice(),
        Call::Chmod { path, .. } => path.parts.as_slice(),
        Call::Truncate { path, .. } => path.parts.as_slice(),
        Call::SetAttr { path, .. } => path.parts.as_slice(),
        Call::GetAttr { path, .. } => path.parts.as_slice(),
        Call::DelAttr { path, .. } => path.parts.as_slice(),
        Call::Read { .. } => &[],
        Call::Write { .. } => &[],
        Call::Seek { .. } => &[],
        Call::Close { .. } => &[],
    }
}

/// The components of a rename's second path that are looked up, none of any other call.
pub fn second_path(call: &Call) -> &[Seq<u8>]
    ensures { result.now ≡ second_of (looked_up call.now) }
{
    match call {
        Call::Rename { target, .. } => parent(target),
        _ => &[],
    }
}
