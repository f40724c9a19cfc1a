//! Data of equal bytes, which is kept once for all calls that write it.
//!
//! The data of a script is no longer than its text, but for runs of one byte (`z:N`, `r:N:HH`). Each run of a page or more
//! becomes a prefix of the longest run of its byte, so that all runs take 16 MiB at most. Nothing is assumed of what is kept:
//! bytes are compared with it before they share it.
ghost use Rattle.std.specs.Prelude.{◌≡◌, true, take, length, IfOk, OnOk};

use crate::scripts::{CallLine, Phase};
use bytes::Bytes;
use fop_types::{Call, Data, Seq};
use std::alloc::{AllocError, Global};
use std::collections::BTreeMap;
use std::mem;

// The longest data of a write, in bytes.
const LONGEST: usize = 65536;

// The fewest bytes that are shared.
const PAGE: usize = 4096;

// Runs of the longest length, by their byte.
#[derive(Drop)]
struct Runs {
    by_byte: BTreeMap<u8, Bytes>,
}

impl Runs {
    fn new(alloc: Global) -> Runs {
        Runs {
            by_byte: BTreeMap::new(alloc),
        }
    }

    // Keeps the run of a byte, if it is not there.
    fn add(&mut self, alloc: Global, byte: u8) -> Result<(), AllocError> {
        if self.by_byte.contains_key(&byte) {
            return Ok(());
        }
        let run = Bytes::from_vec(Vec::from_elem(alloc, byte, LONGEST)?)?;
        drop(self.by_byte.insert(byte, run)?);
        Ok(())
    }

    // The same data, as a prefix of a run where it is one.
    fn shared(&mut self, alloc: Global, bytes: Data) -> Result<Data, AllocError>
        ensures { IfOk result (λ d. d ≡ bytes) }
    {
        let Some(byte) = run_byte(bytes.as_slice()) else {
            return Ok(bytes);
        };
        match self.add(alloc, byte) {
            Ok(()) => prefix_of(self.by_byte.get(&byte), bytes),
            Err(error) => {
                drop(bytes);
                Err(error)
            }
        }
    }
}

// The byte of which long data may be a run: that at its ends.
fn run_byte(bytes: &[u8]) -> Option<u8> {
    if bytes.len() < PAGE {
        return None;
    }
    let first = *bytes.first()?;
    let last = *bytes.last()?;
    if first == last { Some(first) } else { None }
}

fn is_same(one: &[u8], other: &[u8]) -> bool
    ensures { result ≡ true → one.now ≡ other.now }
{
    one == other
}

// Whether data is a prefix of a run.
fn is_prefix(run: &[u8], bytes: &[u8]) -> bool
    ensures { result ≡ true → take (length bytes.now) run.now ≡ bytes.now }
{
    let count = bytes.len();
    if count > run.len() {
        return false;
    }
    is_same(&run[..count], bytes)
}

fn prefix_of(run: Option<&Bytes>, bytes: Data) -> Result<Data, AllocError>
    ensures { IfOk result (λ d. d ≡ bytes) }
{
    match run {
        None => Ok(bytes),
        Some(run) => prefix_if(run, bytes),
    }
}

fn prefix_if(run: &Bytes, bytes: Data) -> Result<Data, AllocError>
    ensures { IfOk result (λ d. d ≡ bytes) }
{
    if !is_prefix(run.as_slice(), bytes.as_slice()) {
        return Ok(bytes);
    }
    let count = bytes.len();
    drop(bytes);
    let mut prefix = run.clone()?;
    prefix.truncate(count);
    Ok(Data::from_shared(prefix))
}

// The same call, whose data is shared.
fn shared_call(alloc: Global, runs: &mut Runs, call: Call) -> Result<Call, AllocError>
    ensures { IfOk result (λ c. c ≡ call) }
{
    match call {
        Call::Write { fd, bytes } => {
            let bytes = runs.shared(alloc, bytes)?;
            Ok(Call::Write { fd, bytes })
        }
        other => Ok(other),
    }
}

fn shared_line(alloc: Global, runs: &mut Runs, line: CallLine) -> Result<CallLine, AllocError>
    ensures { IfOk result (λ l. l ≡ line) }
{
    let CallLine {
        line: number,
        session,
        call,
    } = line;
    let call = shared_call(alloc, runs, call)?;
    Ok(CallLine {
        line: number,
        session,
        call,
    })
}

fn shared_lines(
    alloc: Global,
    runs: &mut Runs,
    lines: Seq<CallLine>,
) -> Result<Seq<CallLine>, AllocError>
    ensures { IfOk result (λ s. s ≡ lines) }
{
    let mut shared = Seq::new(alloc);
    for line in lines.into_vec() {
        shared.push(shared_line(alloc, runs, line)?)?;
    }
    Ok(shared)
}

fn shared_phase(alloc: Global, runs: &mut Runs, phase: Phase) -> Result<Phase, AllocError>
    ensures { IfOk result (λ p. p ≡ phase) }
{
    let Phase { calls, controls } = phase;
    match shared_lines(alloc, runs, calls) {
        Ok(calls) => Ok(Phase { calls, controls }),
        Err(error) => {
            drop(controls);
            Err(error)
        }
    }
}

fn shared_phases(
    alloc: Global,
    runs: &mut Runs,
    phases: Seq<Phase>,
) -> Result<Seq<Phase>, AllocError>
    ensures { IfOk result (λ s. s ≡ phases) }
{
    let mut shared = Seq::new(alloc);
    for phase in phases.into_vec() {
        shared.push(shared_phase(alloc, runs, phase)?)?;
    }
    Ok(shared)
}

/// Shares the data that the calls of phases write. The calls stay what they are.
///
/// # Errors
/// Out of memory.
pub(crate) fn share_data(alloc: Global, phases: &mut Seq<Phase>) -> Result<(), AllocError>
    ensures { OnOk result (phases.new ≡ phases.old) }
{
    let mut runs = Runs::new(alloc);
    let all = mem::replace(phases, Seq::new(alloc));
    let shared = shared_phases(alloc, &mut runs, all);
    drop(runs);
    *phases = shared?;
    Ok(())
}
