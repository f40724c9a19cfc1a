ghost use Rattle.std.specs.Prelude.{◌≡◌, ℕ, Ok, Err, IfOk, IsErrOf};
ghost use Rattle.volfile.specs.VolfileText.{parsed};
ghost use Rattle.volfile.specs.Volumes.{IsVolfile};
ghost use Rattle.volfile.specs.declared.errors.VolKind.{VolKind};
ghost use Rattle.volfile.specs.declared.errors.VolError.TheVariants.{At};

use crate::cuts::{first_line, line_after};
use crate::errors::VolError;
use crate::readers::VolfileReader;
use crate::volumes::Volfile;
use std::alloc::Global;

/// The volfile that a text is.
///
/// # Errors
/// `At` exactly where the text is none, with the first line that is refused and its kind; `Unclosed` and
/// `Empty` have the number of lines. `Mem` where it runs out of memory.
pub fn parse(alloc: Global, text: &[u8]) -> Result<Volfile, VolError>
    ensures ok { IfOk result (λ v. parsed text.now ≡ Ok v) }
    ensures form { IfOk result (λ v. IsVolfile v) }
    ensures refused { (line : ℕ) (kind : VolKind) → IsErrOf result (At line kind) → parsed text.now ≡ Err (At line kind) }
{
    let mut reader = VolfileReader::new(alloc);
    let mut number = 0;
    let mut at = 0;
    while at < text.len() {
        let line = first_line(text, at);
        number = line_after(number);
        reader.line(alloc, number, line)?;
        at += line.len() + 1;
    }
    reader.end(number)
}
