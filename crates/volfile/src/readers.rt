ghost use Rattle.std.specs.Prelude.{◌≡◌, ℕ, Ok, Err, IfOk, OnOk, OnErr, IsErrOf};
ghost use Rattle.volfile.specs.VolfileText.{line_read, nothing_read, text_ended};
ghost use Rattle.volfile.specs.Volumes.{IsVolfile};
ghost use Rattle.volfile.specs.declared.errors.VolKind.{VolKind as Kind};
ghost use Rattle.volfile.specs.declared.errors.VolError.TheVariants.{At};

use crate::errors::VolError;
use crate::held::Held;
use crate::volumes::Volfile;
use std::alloc::Global;
use std::marker::Model;

/// Reads a volfile line by line.
///
/// Contracts see it as what was read so far: the volumes whose blocks have ended, and the open block.
#[derive(Drop)]
pub struct VolfileReader {
    held: Held,
}

impl Model for VolfileReader {
    ghost use Rattle.volfile.specs.VolfileText.{Reading};
    ghost use Rattle.volfile.specs.Volumes.{IsRead};

    ghost Value = { Reading };

    ghost view = { λ r. r.held };

    ghost invariant = { λ r. IsRead r.held };
}

impl VolfileReader {
    /// Nothing is read.
    pub fn new(alloc: Global) -> VolfileReader
        ensures { result ≡ nothing_read }
    {
        VolfileReader {
            held: Held::new(alloc),
        }
    }

    /// Reads one line, given without its line feed. `number` is its number, which a volume that begins
    /// here and a refusal have.
    ///
    /// # Errors
    /// `At` with this number exactly where the line is refused, with the first kind that holds of it.
    /// `Mem` where it runs out of memory. After either nothing is changed.
    pub fn line(&mut self, alloc: Global, number: u32, line: &[u8]) -> Result<(), VolError>
        ensures ok { OnOk result (line_read self.old number line.now ≡ Ok self.new) }
        ensures refused { (place : ℕ) (kind : Kind) → IsErrOf result (At place kind) → (place ≡ number) × (line_read self.old number line.now ≡ Err kind) }
        ensures err { OnErr result (self.new ≡ self.old) }
    {
        match self.held.read(alloc, number, line)? {
            None => Ok(()),
            Some(kind) => Err(VolError::At { line: number, kind }),
        }
    }

    /// The volfile of the lines that were read, where the text ends at the line with this number.
    ///
    /// # Errors
    /// `Unclosed` where a block is open, and else `Empty` where there is no volume, both at this number.
    pub fn end(self, number: u32) -> Result<Volfile, VolError>
        ensures is { result ≡ text_ended self number }
        ensures form { IfOk result (λ v. IsVolfile v) }
    {
        self.held.end(number)
    }
}
