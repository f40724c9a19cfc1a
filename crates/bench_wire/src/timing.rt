ghost use Rattle.wire_xdr.specs.WireText.{IsInput};

use crate::messages::{SIZE, Work, message, payload, request, sum_of};
use fop_types::Input;
use std::alloc::Global;
use std::io;
use std::rt::Runtime;
use std::time::{Duration, Instant};

/// How often each is done in a pass.
const ROUNDS: u32 = 2000;

/// How many passes there are. The quickest is reported, since others may use the processor meanwhile.
const PASSES: u32 = 21;

/// The nanoseconds that the rounds of a pass took, and the sum of a byte of what each gave.
#[derive(Clone, Copy)]
struct Timed {
    nanoseconds: u64,
    sum: u64,
}

/// Longer than any pass.
const NEVER: Timed = Timed {
    nanoseconds: u64::MAX,
    sum: 0,
};

/// Writes to standard error how fast 65,536 bytes are copied, encoded as a write and decoded.
pub fn report<R: Runtime>(rt: &R, alloc: Global) -> io::Result<()> {
    let input = request(payload(alloc)?);
    let done = report_input(rt, alloc, &input);
    drop(input);
    done
}

fn report_input<R: Runtime>(rt: &R, alloc: Global, input: &Input) -> io::Result<()>
    requires { IsInput input.now }
{
    let message = message(alloc, input)?;
    let bytes = payload(alloc)?;
    report_passes(rt, alloc, bytes.as_slice(), input, message.as_slice())
}

/// The quickest of all passes, each of the three for itself. They are timed in turn, so that they meet the same load.
fn report_passes<R: Runtime>(
    rt: &R,
    alloc: Global,
    bytes: &[u8],
    input: &Input,
    message: &[u8],
) -> io::Result<()>
    requires { IsInput input.now }
{
    let mut copy = NEVER;
    let mut encode = NEVER;
    let mut decode = NEVER;
    for _ in 0..PASSES {
        copy = quicker(copy, time_of(rt, alloc, Work::Copy, bytes, input, message)?);
        encode = quicker(
            encode,
            time_of(rt, alloc, Work::Encode, bytes, input, message)?,
        );
        decode = quicker(
            decode,
            time_of(rt, alloc, Work::Decode, bytes, input, message)?,
        );
    }
    report_best(rt, copy, encode, decode)
}

fn report_best<R: Runtime>(rt: &R, copy: Timed, encode: Timed, decode: Timed) -> io::Result<()> {
    eprintln!(rt; "a write of 65536 bytes, the quickest pass of {ROUNDS} rounds:")?;
    report_one(rt, "copy", copy, copy)?;
    report_one(rt, "encode", encode, copy)?;
    report_one(rt, "decode", decode, copy)
}

fn quicker(one: Timed, other: Timed) -> Timed {
    if other.nanoseconds < one.nanoseconds {
        other
    } else {
        one
    }
}

fn time_of<R: Runtime>(
    rt: &R,
    alloc: Global,
    work: Work,
    bytes: &[u8],
    input: &Input,
    message: &[u8],
) -> io::Result<Timed>
    requires { IsInput input.now }
{
    let start = Instant::now(rt)?;
    let sum = sum_of(alloc, work, bytes, input, message, ROUNDS)?;
    let nanoseconds = nanoseconds_of(start.elapsed(rt)?);
    Ok(Timed { nanoseconds, sum })
}

/// Writes the time of one round, how many millions of bytes that is each second, and how many times as
/// long as the copy it takes.
fn report_one<R: Runtime>(rt: &R, name: &str, timed: Timed, copy: Timed) -> io::Result<()> {
    let each = timed.nanoseconds / u64::from(ROUNDS);
    let speed = (SIZE as u64 * 1000).checked_div(each).unwrap_or(0);
    let hundredths = timed
        .nanoseconds
        .saturating_mul(100)
        .checked_div(copy.nanoseconds)
        .unwrap_or(0);
    let sum = timed.sum;
    eprintln!(rt;
        "  {name}: {each} ns, {speed} MB/s, {hundredths} % of the time of the copy; sum {sum}"
    )
}

fn nanoseconds_of(time: Duration) -> u64 {
    time.as_secs()
        .saturating_mul(1000000000)
        .saturating_add(u64::from(time.subsec_nanos()))
}
