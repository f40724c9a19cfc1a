use fop_types::{Call, Proc};
use script_lang::{Action, Script, ScriptError, ScriptKind as Kind, When, parse};
use std::alloc::{AllocError, Global};
use std::process::Abort;
use volfile::VolKind;

// ---- whole texts
const REFUSED: [(&[u8], u32, Kind); 23] = [
    (b"brick b0 h /b\x01\n", 1, Kind::BadByte),
    (b"phase \x01\n", 1, Kind::BadByte),
    (b"phase\n", 1, Kind::Unexpected),
    (b"phase 1 2\n", 1, Kind::Unexpected),
    (b"end-volfile\n", 1, Kind::Unexpected),
    (b"brick b0 h\n", 1, Kind::WordCount),
    (b"brick b@ h\n", 1, Kind::WordCount),
    (b"brick b@ h /b\n", 1, Kind::BadWord),
    (b"brick b h /b\nbrick b i /c\n", 2, Kind::Repeated),
    (b"brick b h /b\nbrick c h /b\n", 2, Kind::Repeated),
    (b"brick b h /b\nbrick c h /c\nstart g\n", 3, Kind::Unknown),
    (b"brick b h /b\nvolfile g\n", 2, Kind::Unclosed),
    (b"", 0, Kind::NoStart),
    (b"\n#", 2, Kind::NoStart),
    (b"#\x01\xff\n \t#\x7f\nphase", 3, Kind::Unexpected),
    (b"volfile g\nvolume\n", 2, Kind::Vol(VolKind::WordCount)),
    (b"volfile g\n\x01\n", 2, Kind::Vol(VolKind::BadByte)),
    (b"volfile g\nend-volfile\n", 2, Kind::Vol(VolKind::Empty)),
    (
        b"volfile g\nvolume a\nend-volfile",
        3,
        Kind::Vol(VolKind::Unclosed),
    ),
    (
        b"volfile g\nend-volfilex\n",
        2,
        Kind::Vol(VolKind::Unexpected),
    ),
    (b"volfile g\nvolume a\nend-volfile #\n", 3, Kind::WordCount),
    (b"volfile g\nend-volfile x\n", 2, Kind::WordCount),
    (b"volfile g\nend-volfile \x01\n", 2, Kind::BadByte),
];

fn is_refused(alloc: Global, text: &[u8], line: u32, kind: Kind) -> bool {
    match parse(alloc, text) {
        Ok(_) => false,
        Err(e) => e == ScriptError::At { line, kind },
    }
}

#[test]
fn refused_texts(rt: HostRuntime) {
    for (text, line, kind) in &REFUSED {
        assert!(rt; is_refused(rt.alloc(), text, *line, *kind));
    }
}

// ---- lines of a phase
// Eight lines: the next has number 9.
const PROLOGUE: &[u8] =
    b"brick b0 h /b0\nvolfile g\nvolume c0\ntype protocol/client\nend-volume\nend-volfile\nstart g\nphase\n";

const LINES: [(&[u8], Kind); 49] = [
    (b"brick b h /b", Kind::Unexpected),
    (b"start g", Kind::Unexpected),
    (b"do", Kind::WordCount),
    (b"do s", Kind::WordCount),
    (b"do s mkdir", Kind::WordCount),
    (b"do s@ mkdir /a", Kind::WordCount),
    (b"do s close 1 2 3 4", Kind::WordCount),
    (b"do s move /a /b", Kind::BadWord),
    (b"do s@ close 1", Kind::BadWord),
    (b"do s stat a", Kind::BadWord),
    (b"do s stat //", Kind::BadWord),
    (b"do s stat /a/", Kind::BadWord),
    (b"do s stat /a/../b", Kind::BadWord),
    (b"do s stat /.", Kind::BadWord),
    (b"do s chmod / 1000", Kind::BadWord),
    (b"do s chmod / 00000", Kind::BadWord),
    (b"do s chmod / 8", Kind::BadWord),
    (b"do s close 256", Kind::BadWord),
    (b"do s close 01", Kind::BadWord),
    (b"do s read 1 65537", Kind::BadWord),
    (b"do s seek 1 4294967296", Kind::BadWord),
    (b"do s write 1 z:65537", Kind::BadWord),
    (b"do s write 1 r:1:F0", Kind::BadWord),
    (b"do s write 1 r:1:f", Kind::BadWord),
    (b"do s write 1 r:1", Kind::BadWord),
    (b"do s write 1 x:0", Kind::BadWord),
    (b"do s write 1 hi", Kind::BadWord),
    (b"do s setattr / user.n z:1025", Kind::BadWord),
    (b"do s getattr / user.", Kind::BadWord),
    (b"do s getattr / trusted.n", Kind::BadWord),
    (
        b"do s getattr / user.678901234567890123456789012345678901234567890123456789012345",
        Kind::BadWord,
    ),
    (b"control", Kind::WordCount),
    (b"control heal now", Kind::WordCount),
    (b"control down b0", Kind::WordCount),
    (b"control after b0 lock 1", Kind::WordCount),
    (b"control before b1 lock 1 down b1", Kind::WordCount),
    (b"control stop", Kind::BadWord),
    (b"control down b1 65536", Kind::BadWord),
    (b"control fault b0 lock 0", Kind::BadWord),
    (b"control fault b0 lock 65536", Kind::BadWord),
    (b"control fault b0 unlock 1", Kind::BadWord),
    (b"control fault b0 patch 1", Kind::BadWord),
    (b"control before b0 lock 1 heal", Kind::BadWord),
    (b"control before b1 lock 1 up b1", Kind::BadWord),
    (b"control before b0 lock 1 down b1 0", Kind::BadWord),
    (b"control up b1", Kind::Unknown),
    (b"control after b1 lock 1 up b0", Kind::Unknown),
    (b"control after b0 lock 1 up b1", Kind::Unknown),
    (b"control switch h", Kind::Unknown),
];

fn behind(alloc: Global, prefix: &[u8], rest: &[u8]) -> Result<Vec<u8>, AllocError> {
    let mut text = Vec::from_slice(alloc, prefix)?;
    text.extend_from_slice(rest)?;
    Ok(text)
}

// Whether lines of a phase are refused at the line of this number.
fn is_refused_at(alloc: Global, lines: &[u8], number: u32, kind: Kind) -> bool {
    match behind(alloc, PROLOGUE, lines) {
        Ok(text) => is_refused(alloc, text.as_slice(), number, kind),
        Err(_) => false,
    }
}

// A control that comes one too late.
const LATE: &[u8] = b"control heal\ncontrol up b0\ncontrol after b0 op 1 switch g";

#[test]
fn refused_lines(rt: HostRuntime) {
    for (line, kind) in &LINES {
        assert!(rt; is_refused_at(rt.alloc(), line, 9, *kind));
    }
    assert!(rt; is_refused_at(rt.alloc(), LATE, 11, Kind::TwoGreat));
}

// ---- what is accepted
fn call_is(line: &[u8], call: &Call) -> bool {
    match call {
        Call::Mkdir { path, mode } => line.starts_with(b"do s mkdir")
            && path.parts.len() == 2
            && *mode == 511,
        Call::Rename { path, target } => line.starts_with(b"do s rename")
            && path.parts.len() == 1
            && target.parts.is_empty(),
        Call::Truncate { path, size } => line.starts_with(b"do s truncate")
            && path.parts.len() == 1
            && *size == 4294967295,
        Call::SetAttr { path, attr } => path.parts.is_empty()
            && attr.name.as_slice() == b"user.n".as_slice()
            && attr.value.as_slice() == b"\x0f\xa0".as_slice(),
        Call::Write { fd, bytes } => *fd == 2 && bytes.as_slice() == line_data(line),
        Call::Close { fd } => line.starts_with(b"do s close") && *fd == 255,
        _ => false,
    }
}

// The bytes of the data words of the table below.
fn line_data(line: &[u8]) -> &'static [u8] {
    if line == b"do s write 2 t:r:1:00".as_slice() {
        b"r:1:00"
    } else if line == b"do s write 2 r:3:0f".as_slice() {
        b"\x0f\x0f\x0f"
    } else if line == b"do s write 2 z:2".as_slice() {
        b"\x00\x00"
    } else {
        b""
    }
}

const CALLS: [&[u8]; 11] = [
    b"do s mkdir /a/... 0777",
    b"do s rename /a /",
    b"do s truncate /a 4294967295",
    b"do s setattr / user.n x:0fa0",
    b"do s write 2 t:r:1:00",
    b"do s write 2 r:3:0f",
    b"do s write 2 z:2",
    b"do s write 2 t:",
    b"do s write 2 x:",
    b"do s write 2 r:0:ff",
    b"do s close 255",
];

fn one_call(script: &Script, line: &[u8]) -> bool {
    match script.phases.as_slice() {
        [phase] => match phase.calls.as_slice() {
            [c] => c.line == 9 && c.session == 0 && call_is(line, &c.call),
            _ => false,
        },
        _ => false,
    }
}

fn is_accepted_call(alloc: Global, line: &[u8]) -> Result<bool, AllocError> {
    let text = behind(alloc, PROLOGUE, line)?;
    match parse(alloc, text.as_slice()) {
        Ok(script) => Ok(one_call(&script, line)),
        Err(_) => Ok(false),
    }
}

#[test]
fn accepted_calls(rt: HostRuntime) {
    for line in &CALLS {
        assert!(rt; matches!(is_accepted_call(rt.alloc(), line), Ok(true)));
    }
}

fn control_is(line: &[u8], when: When, action: Action) -> bool {
    match (when, action) {
        (When::Now, Action::Down(0, 65535)) => line.starts_with(b"control down"),
        (When::Now, Action::Cut(0)) => line.starts_with(b"control cut"),
        (When::Now, Action::Switch(0)) => line.starts_with(b"control switch"),
        (When::Before(0, Proc::Unlock, 1), Action::Fault(0, Proc::Release, 65535)) =>
            line.starts_with(b"control before"),
        (When::After(0, Proc::Op, 2), Action::Heal) => line.starts_with(b"control after"),
        _ => false,
    }
}

const CONTROLS: [&[u8]; 5] = [
    b"control down b0 65535",
    b"control cut b0",
    b"control switch g",
    b"control before b0 unlock 1 fault b0 release 65535",
    b"control after b0 op 2 heal",
];

fn one_control(script: &Script, line: &[u8]) -> bool {
    match script.phases.as_slice() {
        [phase] => match phase.controls.as_slice() {
            [c] => c.line == 9 && control_is(line, c.when, c.action),
            _ => false,
        },
        _ => false,
    }
}

fn is_accepted_control(alloc: Global, line: &[u8]) -> Result<bool, AllocError> {
    let text = behind(alloc, PROLOGUE, line)?;
    match parse(alloc, text.as_slice()) {
        Ok(script) => Ok(one_control(&script, line)),
        Err(_) => Ok(false),
    }
}

#[test]
fn accepted_controls(rt: HostRuntime) {
    for line in &CONTROLS {
        assert!(rt; matches!(is_accepted_control(rt.alloc(), line), Ok(true)));
    }
}

// ---- limits: so many lines are accepted, and one more is refused
const LIMITS: [(&[u8], u32, u32); 2] = [(b"phase\n", 4095, 4104), (b"do s close 1\n", 4096, 4105)];

fn is_accepted(alloc: Global, text: &[u8]) -> bool {
    match parse(alloc, text) {
        Ok(script) => {
            drop(script);
            true
        }
        Err(_) => false,
    }
}

fn put_lines(text: &mut Vec<u8>, line: &[u8], count: u32) -> Result<(), AllocError> {
    for _ in 0..count {
        text.extend_from_slice(line)?;
    }
    Ok(())
}

fn is_limit(alloc: Global, line: &[u8], count: u32, number: u32) -> Result<bool, AllocError> {
    let mut text = Vec::from_slice(alloc, PROLOGUE)?;
    put_lines(&mut text, line, count)?;
    let accepted = is_accepted(alloc, text.as_slice());
    text.extend_from_slice(line)?;
    Ok(accepted && is_refused(alloc, text.as_slice(), number, Kind::TooMany))
}

#[test]
fn limits_of_phases_and_calls(rt: HostRuntime) {
    for (line, count, number) in &LIMITS {
        assert!(rt; matches!(is_limit(rt.alloc(), line, *count, *number), Ok(true)));
    }
}

// The first word, the length of the line, and the kind.
const LONG: [(&[u8], usize, Kind); 5] = [
    (b"#", 140000, Kind::NoStart),
    (b"#", 140001, Kind::LongLine),
    (b"phase", 140000, Kind::Unexpected),
    (b"phase", 140001, Kind::LongLine),
    (b"\x01", 140001, Kind::BadByte),
];

fn is_long(alloc: Global, word: &[u8], len: usize, kind: Kind) -> Result<bool, AllocError> {
    let mut line = Vec::from_slice(alloc, word)?;
    line.resize(len, b'a')?;
    Ok(is_refused(alloc, line.as_slice(), 1, kind))
}

#[test]
fn long_lines(rt: HostRuntime) {
    for (word, len, kind) in &LONG {
        assert!(rt; matches!(is_long(rt.alloc(), word, *len, *kind), Ok(true)));
    }
}
