ghost use Rattle.std.specs.Prelude.{◌≡◌, IfOk};
ghost use Rattle.fop_types.specs.Paths.{last_part};

use crate::calls::Path;
use crate::lists::Seq;
use std::alloc::{AllocError, Global};

impl Path {
    /// A copy of the path.
    ///
    /// # Errors
    /// Out of memory.
    pub fn copy(&self, alloc: Global) -> Result<Path, AllocError>
        ensures { IfOk result (λ c. c ≡ self.now) }
    {
        let parts = self.parts.as_slice();
        let mut copies = Vec::with_capacity(alloc, parts.len())?;
        for part in parts {
            copies.push(part.copy(alloc)?)?;
        }
        Ok(Path {
            parts: Seq::from_vec(copies),
        })
    }

    /// The last component, in constant time; of the path `/` the empty name.
    pub fn last(&self) -> &[u8]
        ensures { result.now ≡ last_part self.now.parts }
    {
        let parts = self.parts.as_slice();
        let count = parts.len();
        if count == 0 {
            &[]
        } else {
            parts[count - 1].as_slice()
        }
    }
}
