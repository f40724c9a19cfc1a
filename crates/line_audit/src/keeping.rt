//! Items of a list that stay.
ghost use Rattle.std.specs.Prelude.{◌≡◌, ◌++◌, ◌∷◌, List, OnOk, if◌then◌else◌};

use std::alloc::AllocError;

/// Puts an item behind those that stay, unless it is gone.
///
/// # Errors
/// Out of memory.
pub fn keep_unless<T: Copy>(kept: &mut Vec<T>, gone: bool, item: T) -> Result<(), AllocError>
    ensures { OnOk result ((rest : List T) → kept.new.items ++ rest ≡ kept.old.items ++ (if gone then rest else item ∷ rest)) }
{
    if gone {
        return Ok(());
    }
    kept.push(item)?;
    Ok(())
}
