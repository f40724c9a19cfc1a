ghost use Rattle.std.specs.Prelude.{◌≡◌, IfOk};
ghost use Rattle.fop_types.specs.declared.messages.OutKind.TheVariants.{Reply};
ghost use Rattle.fop_types.specs.declared.messages.BrickRep.TheVariants.{Done};
ghost use Rattle.fop_types.specs.declared.messages.DoneArm.TheVariants as done;
ghost use Rattle.wire_xdr.specs.WireText.{input_text, IsInput, output_text, IsOutput};

mod lengths;
mod ops;
mod parts;
mod replies;
mod requests;

use crate::encode::lengths::{content_len, input_len, output_len};
use crate::encode::parts::{put_content, put_hyper, put_unit, put_units};
use crate::encode::replies::put_output;
use crate::encode::requests::put_input;
use fop_types::{Content, Input, Output};
use std::alloc::{AllocError, Global};

/// The encoding of an input, which must have one. Its memory is taken once, as long as the encoding.
///
/// # Errors
/// Out of memory.
pub fn encode_req(alloc: Global, input: &Input) -> Result<Vec<u8>, AllocError>
    requires { IsInput input.now }
    ensures { IfOk result (λ bytes. bytes.items ≡ input_text input.now) }
{
    let mut bytes = Vec::with_capacity(alloc, input_len(input))?;
    put_input(&mut bytes, input)?;
    Ok(bytes)
}

/// The encoding of an output, which must have one. Its memory is taken once, as long as the encoding.
///
/// # Errors
/// Out of memory.
pub fn encode_rep(alloc: Global, output: &Output) -> Result<Vec<u8>, AllocError>
    requires { IsOutput output.now }
    ensures { IfOk result (λ bytes. bytes.items ≡ output_text output.now) }
{
    rep_bytes(alloc, output)
}

/// The bytes of an output by the format. They are its encoding where it has one; a list that is too long for one is
/// put all the same. Their memory is taken once.
///
/// # Errors
/// Out of memory.
pub fn rep_bytes(alloc: Global, output: &Output) -> Result<Vec<u8>, AllocError>
    ensures { IfOk result (λ bytes. bytes.items ≡ output_text output.now) }
{
    let mut bytes = Vec::with_capacity(alloc, output_len(output))?;
    put_output(&mut bytes, output)?;
    Ok(bytes)
}

/// The bytes of a reply with a cell's content and its last change, as `rep_bytes` gives them, taken from the content
/// where it is.
///
/// # Errors
/// Out of memory.
pub fn copy_bytes(
    alloc: Global,
    taken: u64,
    wind: u64,
    content: &Content,
    last: u64,
) -> Result<Vec<u8>, AllocError>
    ensures { IfOk result (λ bytes. bytes.items ≡ output_text (record { taken = taken; kind = Reply wind (Done (done.Content content.now last)) })) }
{
    let mut bytes = Vec::with_capacity(alloc, content_len(content).saturating_add(36))?;
    put_hyper(&mut bytes, taken)?;
    put_unit(&mut bytes, 0)?;
    put_hyper(&mut bytes, wind)?;
    put_units(&mut bytes, 0, 2)?;
    put_content(&mut bytes, content)?;
    put_hyper(&mut bytes, last)?;
    Ok(bytes)
}
