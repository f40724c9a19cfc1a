use fop_types::Seq;
use graph_build::{NodeKind, NodePlan, Plan, PlanError, PlanKind, SetPlan, build, follows};
use std::alloc::{AllocError, Global};
use std::process::Abort;
use volfile::{BrickLine, parse};

// ---- volfiles over clients c0, c1 .. of the bricks at h0, h1 ..
fn brick(alloc: Global, host: &[u8]) -> Result<BrickLine, AllocError> {
    Ok(BrickLine {
        name: Seq::from_bytes(alloc, host)?,
        host: Seq::from_bytes(alloc, host)?,
        path: Seq::from_bytes(alloc, b"/b")?,
    })
}

const HOSTS: [&[u8]; 6] = [b"h0", b"h1", b"h2", b"h3", b"h4", b"h5"];

fn bricks(alloc: Global) -> Result<Vec<BrickLine>, AllocError> {
    let mut bricks = Vec::new(alloc);
    for host in &HOSTS {
        bricks.push(brick(alloc, host)?)?;
    }
    Ok(bricks)
}

fn put_all(text: &mut Vec<u8>, parts: &[&[u8]]) -> Result<(), AllocError> {
    for part in parts {
        text.extend_from_slice(part)?;
    }
    Ok(())
}

fn put_client(text: &mut Vec<u8>, number: u8) -> Result<(), AllocError> {
    let digit = [b'0' + number % 10];
    let parts: [&[u8]; 5] = [
        b"volume c",
        &digit,
        b"\ntype protocol/client\noption remote-host h",
        &digit,
        b"\noption remote-subvolume /b\nend-volume\n",
    ];
    put_all(text, &parts)
}

fn text(alloc: Global, clients: u8, rest: &[u8]) -> Result<Vec<u8>, AllocError> {
    let mut text = Vec::new(alloc);
    for number in 0..clients {
        put_client(&mut text, number)?;
    }
    text.extend_from_slice(rest)?;
    Ok(text)
}

// Graphs have at most 256 volumes and 60 bricks.
fn planned(alloc: Global, clients: u8, rest: &[u8]) -> Result<Plan, PlanError> {
    let text = text(alloc, clients, rest)?;
    let bricks = bricks(alloc)?;
    match parse(alloc, text.as_slice()) {
        Err(_) => Err(PlanError::Mem),
        Ok(v) => {
            if v.volumes.len() > 256 || bricks.len() > 60 {
                return Err(PlanError::Mem);
            }
            build(alloc, &v, bricks.as_slice())
        }
    }
}

// ---- refusals: the number of clients, the volumes over them, the volume that is refused, and why
const REFUSED: [(u8, &[u8], u16, PlanKind); 20] = [
    (
        3,
        b"volume v\ntype cluster/disperse\nend-volume\n",
        3,
        PlanKind::UnknownKind,
    ),
    (
        3,
        b"volume v\ntype protocol/client\nsubvolumes c0\nend-volume\n",
        3,
        PlanKind::SubvolumeCount,
    ),
    (
        3,
        b"volume v\ntype cluster/distribute\nend-volume\n",
        3,
        PlanKind::SubvolumeCount,
    ),
    (
        3,
        b"volume v\ntype debug/io-stats\nsubvolumes c0 c1\nend-volume\n",
        3,
        PlanKind::SubvolumeCount,
    ),
    (
        3,
        b"volume v\ntype cluster/replicate\nsubvolumes c0 c1\nend-volume\n",
        3,
        PlanKind::BadReplica,
    ),
    (
        3,
        b"volume v\ntype cluster/replicate\noption arbiter-count 1\nsubvolumes c0 c1 c2\nend-volume\n",
        3,
        PlanKind::BadReplica,
    ),
    (
        3,
        b"volume v\ntype cluster/replicate\noption thin-arbiter x\nsubvolumes c0 c1 c2\nend-volume\n",
        3,
        PlanKind::BadReplica,
    ),
    (
        3,
        b"volume v\ntype cluster/replicate\noption arbiter-count 0\noption quorum-type none\nsubvolumes c0 c1 c2\nend-volume\n",
        3,
        PlanKind::NotAuto,
    ),
    (
        3,
        b"volume v\ntype protocol/client\noption remote-host h0\noption remote-subvolume /c\nend-volume\n",
        3,
        PlanKind::NoBrick,
    ),
    (
        3,
        b"volume v\ntype protocol/client\noption remote-host h0\noption remote-subvolume /b\nend-volume\n",
        3,
        PlanKind::BrickTwice,
    ),
    (
        1,
        b"volume i\ntype performance/io-cache\noption cache-size 18014398509481984KB\nsubvolumes c0\nend-volume\n",
        1,
        PlanKind::BadOption,
    ),
    (
        1,
        b"volume i\ntype performance/io-cache\noption cache-size 1kb\nsubvolumes c0\nend-volume\n",
        1,
        PlanKind::BadOption,
    ),
    (
        3,
        b"volume v\ntype cluster/distribute\nsubvolumes c0 c1 c0\nend-volume\n",
        3,
        PlanKind::UsedTwice,
    ),
    (
        3,
        b"volume v\ntype debug/io-stats\nsubvolumes c0\nend-volume\nvolume w\ntype cluster/distribute\nsubvolumes c0\nend-volume\n",
        4,
        PlanKind::UsedTwice,
    ),
    (
        3,
        b"volume x\ntype performance/io-cache\nsubvolumes c0\nend-volume\nvolume d\ntype cluster/distribute\nsubvolumes x c1 c2\nend-volume\n",
        4,
        PlanKind::NestedCluster,
    ),
    (
        3,
        b"volume x\ntype performance/io-threads\nsubvolumes c0\nend-volume\nvolume r\ntype cluster/replicate\nsubvolumes x c1 c2\nend-volume\n",
        4,
        PlanKind::NestedCluster,
    ),
    (
        3,
        b"volume d\ntype cluster/distribute\nsubvolumes c0 c1 c2\nend-volume\nvolume p\ntype debug/io-stats\nsubvolumes d\nend-volume\nvolume e\ntype cluster/distribute\nsubvolumes p\nend-volume\n",
        5,
        PlanKind::NestedCluster,
    ),
    (
        3,
        b"volume d\ntype cluster/distribute\nsubvolumes c0 c1 c2\nend-volume\nvolume x\ntype performance/io-cache\nsubvolumes d\nend-volume\nvolume t\ntype performance/io-threads\nsubvolumes x\nend-volume\nvolume y\ntype performance/io-cache\nsubvolumes t\nend-volume\n",
        6,
        PlanKind::NestedCluster,
    ),
    (
        3,
        b"volume v\ntype debug/io-stats\nsubvolumes c0\nend-volume\nvolume w\ntype cluster/distribute\nsubvolumes v c1\nend-volume\n",
        2,
        PlanKind::Unused,
    ),
    (2, b"", 0, PlanKind::Unused),
];

fn is_refused(alloc: Global, clients: u8, rest: &[u8], volume: u16, kind: PlanKind) -> bool {
    match planned(alloc, clients, rest) {
        Ok(_) => false,
        Err(e) => e == PlanError::At { volume, kind },
    }
}

#[test]
fn refused_plans(rt: HostRuntime) {
    for (clients, rest, volume, kind) in &REFUSED {
        assert!(rt; is_refused(rt.alloc(), *clients, rest, *volume, *kind));
    }
}

// ---- plans, as a text: the nodes with their children, then the sets with their names, bricks and quorums
const PLANNED: [(u8, &[u8], &[u8]); 4] = [
    (1, b"", b"C0;R0 0;D 1;|c0 0 q1;"),
    (
        3,
        b"volume r0\ntype cluster/replicate\nsubvolumes c0 c1 c2\nend-volume\nvolume d\ntype cluster/distribute\nsubvolumes r0\nend-volume\nvolume i\ntype performance/io-cache\nsubvolumes d\nend-volume\nvolume t\ntype performance/io-threads\nsubvolumes i\nend-volume\nvolume v\ntype debug/io-stats\nsubvolumes t\nend-volume\n",
        b"C0;C1;C2;R0 0 1 2;D 3;I8192 4;T 5;P 6;|r0 0 1 2 q2;",
    ),
    (
        5,
        b"volume p\ntype features/utime\nsubvolumes c3\nend-volume\nvolume r\ntype cluster/replicate\nsubvolumes c2 p c0\nend-volume\nvolume q\ntype debug/io-stats\nsubvolumes r\nend-volume\nvolume d\ntype cluster/distribute\nsubvolumes c4 q c1\nend-volume\n",
        b"C0;C1;R2 1;C2;C3;C4;R0 5;P 4;R1 3 7 0;P 8;D 6 9 2;|c4 4 q1;r 2 3 0 q2;c1 1 q1;",
    ),
    (
        1,
        b"volume i\ntype performance/io-cache\noption cache-size 5KB\nsubvolumes c0\nend-volume\n",
        b"C0;R0 0;D 1;I1 2;|c0 0 q1;",
    ),
];

fn put_number(
    alloc: Global,
    shown: &mut Vec<u8>,
    sign: &[u8],
    number: u32,
) -> Result<(), AllocError> {
    shown.extend_from_slice(sign)?;
    let digits = number.to_string(alloc)?;
    shown.extend_from_slice(digits.as_bytes())
}

fn put_kind(alloc: Global, shown: &mut Vec<u8>, node: &NodePlan) -> Result<(), AllocError> {
    match node.kind {
        NodeKind::Client(brick) => put_number(alloc, shown, b"C", brick as u32),
        NodeKind::Replicate(set) => put_number(alloc, shown, b"R", set as u32),
        NodeKind::Distribute => shown.extend_from_slice(b"D"),
        NodeKind::IoCache => put_number(alloc, shown, b"I", node.cache_pages),
        NodeKind::IoThreads => shown.extend_from_slice(b"T"),
        NodeKind::Pass => shown.extend_from_slice(b"P"),
    }
}

fn put_node(alloc: Global, shown: &mut Vec<u8>, node: &NodePlan) -> Result<(), AllocError> {
    put_kind(alloc, shown, node)?;
    for child in node.children.as_slice() {
        put_number(alloc, shown, b" ", *child as u32)?;
    }
    shown.extend_from_slice(b";")
}

fn put_set(alloc: Global, shown: &mut Vec<u8>, set: &SetPlan) -> Result<(), AllocError> {
    shown.extend_from_slice(set.name.as_slice())?;
    for brick in set.bricks.as_slice() {
        put_number(alloc, shown, b" ", *brick as u32)?;
    }
    put_number(alloc, shown, b" q", set.q as u32)?;
    shown.extend_from_slice(b";")
}

fn shown(alloc: Global, plan: &Plan) -> Result<Vec<u8>, AllocError> {
    let mut shown = Vec::new(alloc);
    for node in plan.nodes.as_slice() {
        put_node(alloc, &mut shown, node)?;
    }
    shown.push(b'|')?;
    for set in plan.sets.as_slice() {
        put_set(alloc, &mut shown, set)?;
    }
    Ok(shown)
}

fn is_planned(alloc: Global, clients: u8, rest: &[u8], wanted: &[u8]) -> Result<bool, PlanError> {
    let plan = planned(alloc, clients, rest)?;
    let shown = shown(alloc, &plan)?;
    Ok(shown.as_slice() == wanted)
}

#[test]
fn plans(rt: HostRuntime) {
    for (clients, rest, wanted) in &PLANNED {
        assert!(rt; matches!(is_planned(rt.alloc(), *clients, rest, wanted), Ok(true)));
    }
}

// ---- paths: so many pass-through volumes over a client
fn put_pass(chain: &mut Vec<u8>, name: &[u8], below: &[u8]) -> Result<(), AllocError> {
    let parts: [&[u8]; 5] = [
        b"volume ",
        name,
        b"\ntype features/utime\nsubvolumes ",
        below,
        b"\nend-volume\n",
    ];
    put_all(chain, &parts)
}

fn chain(alloc: Global, passes: u8) -> Result<Vec<u8>, AllocError> {
    let mut chain = Vec::new(alloc);
    if passes != 0 {
        put_pass(&mut chain, b"a", b"c0")?;
    }
    for i in 1..passes {
        put_pass(&mut chain, &[b'a' + i % 26], &[b'a' + (i - 1) % 26])?;
    }
    Ok(chain)
}

fn is_planned_chain(alloc: Global, passes: u8) -> Result<bool, PlanError> {
    let chain = chain(alloc, passes)?;
    drop(planned(alloc, 1, chain.as_slice())?);
    Ok(true)
}

fn is_refused_chain(alloc: Global, passes: u8) -> Result<bool, AllocError> {
    let chain = chain(alloc, passes)?;
    Ok(is_refused(alloc, 1, chain.as_slice(), passes as u16, PlanKind::TooDeep))
}

#[test]
fn paths_have_24_volumes(rt: HostRuntime) {
    assert!(rt; matches!(is_planned_chain(rt.alloc(), 23), Ok(true)));
    assert!(rt; matches!(is_refused_chain(rt.alloc(), 24), Ok(true)));
}

// ---- which plan may follow
const R: &[u8] = b"volume r\ntype cluster/replicate\nsubvolumes c0 c1 c2\nend-volume\n";

const S: &[u8] =
    b"volume s\ntype cluster/replicate\nsubvolumes c0 c1 c2\nend-volume\nvolume t\ntype cluster/replicate\nsubvolumes c3 c4 c5\nend-volume\nvolume d\ntype cluster/distribute\nsubvolumes s t\nend-volume\n";

const TWO: &[u8] = b"volume d\ntype cluster/distribute\nsubvolumes c0 c1\nend-volume\n";

const TURNED: &[u8] = b"volume d\ntype cluster/distribute\nsubvolumes c1 c0\nend-volume\n";

const FOLLOWED: [(u8, &[u8], u8, &[u8], bool); 6] = [
    (1, b"", 1, b"", true),
    (1, b"", 2, TWO, true),
    (2, TWO, 1, b"", false),
    (1, b"", 2, TURNED, false),
    (1, b"", 3, R, false),
    (3, R, 6, S, true),
];

fn is_followed(
    alloc: Global,
    before: u8,
    old: &[u8],
    after: u8,
    new: &[u8],
    wanted: bool,
) -> Result<bool, PlanError> {
    let old = planned(alloc, before, old)?;
    let new = planned(alloc, after, new)?;
    Ok(follows(&old, &new) == wanted)
}

#[test]
fn old_sets_come_first(rt: HostRuntime) {
    for (before, old, after, new, wanted) in &FOLLOWED {
        let followed = is_followed(rt.alloc(), *before, old, *after, new, *wanted);
        assert!(rt; matches!(followed, Ok(true)));
    }
}
