//! Lists of one value.
ghost use Rattle.std.specs.Prelude.{◌≡◌, replicate, IfOk};

use std::alloc::{AllocError, Global};

/// So many of a value.
///
/// # Errors
/// Out of memory.
#[tactic(auto, using(crate::proofs::Filling::filled_next))]
pub(crate) fn filled<T: Copy>(alloc: Global, count: usize, value: T) -> Result<Vec<T>, AllocError>
    ensures { IfOk result (λ v. v.items ≡ replicate count value) }
{
    let mut items = Vec::new(alloc);
    for _ in 0..count {
        items.push(value)?;
    }
    Ok(items)
}
