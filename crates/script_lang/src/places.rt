ghost use Rattle.std.specs.Prelude.{◌≡◌, Result, Option};
ghost use Rattle.script_lang.specs.ControlText.{both as both_of, brick_at, defined as defined_of, fault_proc_at, formed as formed_of, nth_at, nth_request_at, request_at, served_at, volfile_at};

use crate::errors::ScriptKind;
use crate::few::Few;
use crate::numbers::number_of;
use crate::scripts::NamedVolfile;
use crate::words::{is_word, proc_of};
use fop_types::Proc;
use volfile::{BrickLine, is_name};

// A request of a procedure, by its number among those of the procedure in the phase.
#[derive(Clone, Copy)]
pub struct NthRequest {
    pub proc: Proc,
    pub nth: u32,
}

// The same with the brick that it is sent to.
#[derive(Clone, Copy)]
pub struct Request {
    pub brick: u8,
    pub proc: Proc,
    pub nth: u32,
}

// Two readings of one line: both values, or the earlier kind.
pub(crate) fn both<A: Copy, B: Copy>(
    a: Result<A, ScriptKind>,
    b: Result<B, ScriptKind>,
) -> Result<(A, B), ScriptKind>
    ensures { result ≡ both_of a b }
{
    match a {
        Ok(x) => match b {
            Ok(y) => Ok((x, y)),
            Err(kind) => Err(kind),
        },
        Err(kind) => match b {
            Ok(_) => Err(kind),
            Err(other) => Err(kind.or_earlier(other)),
        },
    }
}

// A word of a form that may not be missing.
pub(crate) fn formed<A: Copy>(word: Option<A>) -> Result<A, ScriptKind>
    ensures { result ≡ formed_of word }
{
    match word {
        Some(a) => Ok(a),
        None => Err(ScriptKind::BadWord),
    }
}

// A name that must be defined.
fn defined(place: Option<u8>) -> Result<u8, ScriptKind>
    ensures { result ≡ defined_of place }
{
    match place {
        Some(n) => Ok(n),
        None => Err(ScriptKind::Unknown),
    }
}

pub(crate) fn brick_of(bricks: &Few<BrickLine>, word: &[u8]) -> Result<u8, ScriptKind>
    ensures { result ≡ brick_at bricks.now word.now }
{
    if is_name(word) {
        defined(bricks.place(word))
    } else {
        Err(ScriptKind::BadWord)
    }
}

pub(crate) fn volfile_of(volfiles: &Few<NamedVolfile>, word: &[u8]) -> Result<u8, ScriptKind>
    ensures { result ≡ volfile_at volfiles.now word.now }
{
    if is_name(word) {
        defined(volfiles.place(word))
    } else {
        Err(ScriptKind::BadWord)
    }
}

fn nth_of(word: &[u8]) -> Result<u32, ScriptKind>
    ensures { result ≡ nth_at word.now }
{
    formed(number_of(1, 65535, word))
}

pub(crate) fn served_of(word: &[u8]) -> Result<u32, ScriptKind>
    ensures { result ≡ served_at word.now }
{
    formed(number_of(0, 65535, word))
}

// The procedure of a fault: any but `unlock`.
pub(crate) fn fault_proc_of(word: &[u8]) -> Result<Proc, ScriptKind>
    ensures { result ≡ fault_proc_at word.now }
{
    if is_word(word, b"unlock") {
        Err(ScriptKind::BadWord)
    } else {
        formed(proc_of(word))
    }
}

pub(crate) fn nth_request_of(
    proc: Result<Proc, ScriptKind>,
    nth: &[u8],
) -> Result<NthRequest, ScriptKind>
    ensures { result ≡ nth_request_at proc nth.now }
{
    let (proc, nth) = both(proc, nth_of(nth))?;
    Ok(NthRequest { proc, nth })
}

// The nth request of a procedure to a brick.
pub(crate) fn request_of(
    bricks: &Few<BrickLine>,
    brick: &[u8],
    proc: &[u8],
    nth: &[u8],
) -> Result<Request, ScriptKind>
    ensures { result ≡ request_at bricks.now brick.now proc.now nth.now }
{
    let request = nth_request_of(formed(proc_of(proc)), nth);
    let (brick, request) = both(brick_of(bricks, brick), request)?;
    Ok(Request {
        brick,
        proc: request.proc,
        nth: request.nth,
    })
}
