use lane_scan::{all_zero, differ, plain};
use std::io;
use std::rt::Runtime;
use std::time::{Duration, Instant};

const ROUNDS: u32 = 50000;

#[derive(Clone, Copy)]
enum Scan {
    DifferByLanes,
    DifferPlainly,
    Compare,
    ZeroByLanes,
    ZeroPlainly,
}

const SCANS: [(&str, Scan); 5] = [
    ("differ: lanes", Scan::DifferByLanes),
    ("differ: plain", Scan::DifferPlainly),
    ("differ: memory compare", Scan::Compare),
    ("all_zero: lanes", Scan::ZeroByLanes),
    ("all_zero: plain", Scan::ZeroPlainly),
];

/// Writes to standard error how many nanoseconds each scan takes for one block.
pub fn report<R: Runtime>(rt: &R) -> io::Result<()> {
    for (name, scan) in &SCANS {
        report_one(rt, name, *scan)?;
    }
    Ok(())
}

/// The time of one scan of equal blocks, which no scan may leave early.
fn report_one<R: Runtime>(rt: &R, name: &str, scan: Scan) -> io::Result<()> {
    let start = Instant::now(rt)?;
    let met = scanned(scan);
    let each = nanoseconds_of(start.elapsed(rt)?) / u64::from(ROUNDS);
    if met {
        return eprintln!(rt; "{name}: met a difference that is not there");
    }
    eprintln!(rt; "{name} {each} ns")
}

/// Scans two equal blocks of zeros again and again, and says whether a difference was met. A byte is
/// written in each round, so that no round can be left out.
fn scanned(scan: Scan) -> bool {
    let mut a = [0; 4096];
    let mut b = [0; 4096];
    let mut met = false;
    for round in 0..ROUNDS {
        let place = round as usize % 4096;
        a[place] = 0;
        b[place] = 0;
        met |= met_by(scan, &a, &b);
    }
    met
}

fn met_by(scan: Scan, a: &[u8; 4096], b: &[u8; 4096]) -> bool {
    match scan {
        Scan::DifferByLanes => differ(a, b) != 0,
        Scan::DifferPlainly => plain::differ(a, b) != 0,
        Scan::Compare => a.as_slice() != b.as_slice(),
        Scan::ZeroByLanes => !all_zero(a),
        Scan::ZeroPlainly => !plain::all_zero(a),
    }
}

fn nanoseconds_of(time: Duration) -> u64 {
    time.as_secs()
        .saturating_mul(1000000000)
        .saturating_add(u64::from(time.subsec_nanos()))
}
