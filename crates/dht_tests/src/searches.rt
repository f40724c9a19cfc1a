ghost use Rattle.std.specs.Prelude.{◌≡◌, ◌≤◌, length, IfOk, Some};

use dht_linkto::{Found, Lookup, Next, names_in, names_job};
use fop_types::{Content, Gfid, IoError, Item, Job, Kind, Seq, SetReply, Span};
use std::alloc::{AllocError, Global};
use std::test::*;

// What a set shows of the name, in these tests.
#[derive(Clone, Copy)]
enum Shows {
    Nothing,
    File,
    LinkTo(&'static [u8]),
    Fails,
}

use Shows::{Fails, File, LinkTo, Nothing};

// Names of the sets, in order.
const NAMES: [&[u8]; 3] = [b"s0", b"s1", b"s2"];

// A lookup: to which of the sets the name belongs, what each set shows, which are asked in order, and what is found:
// the number of a set, or none.
struct Case {
    hashed: u8,
    shows: &'static [Shows],
    asked: &'static [u8],
    found: Option<u8>,
}

const CASES: [Case; 12] = [
    Case {
        hashed: 0,
        shows: &[File],
        asked: &[0],
        found: Some(0),
    },
    Case {
        hashed: 0,
        shows: &[Nothing],
        asked: &[0],
        found: None,
    },
    Case {
        hashed: 0,
        shows: &[LinkTo(b"s0")],
        asked: &[0],
        found: None,
    },
    Case {
        hashed: 1,
        shows: &[File, Nothing],
        asked: &[1, 0],
        found: Some(0),
    },
    Case {
        hashed: 1,
        shows: &[Nothing, Nothing],
        asked: &[1, 0],
        found: None,
    },
    Case {
        hashed: 1,
        shows: &[Nothing, Nothing, File],
        asked: &[1, 0, 2],
        found: Some(2),
    },
    Case {
        hashed: 1,
        shows: &[Nothing, LinkTo(b"s2"), File],
        asked: &[1, 2],
        found: Some(2),
    },
    Case {
        hashed: 1,
        shows: &[File, LinkTo(b"s2"), Nothing],
        asked: &[1, 2, 0],
        found: Some(0),
    },
    Case {
        hashed: 1,
        shows: &[Nothing, LinkTo(b"s7"), Nothing],
        asked: &[1, 0, 2],
        found: None,
    },
    Case {
        hashed: 0,
        shows: &[LinkTo(b"s2"), File, LinkTo(b"s1")],
        asked: &[0, 2, 1],
        found: Some(1),
    },
    Case {
        hashed: 2,
        shows: &[LinkTo(b"s1"), File, Nothing],
        asked: &[2, 0, 1],
        found: Some(1),
    },
    Case {
        hashed: 2,
        shows: &[Fails, File, Nothing],
        asked: &[2, 0],
        found: None,
    },
];

fn item(alloc: Global, kind: Kind, target: &[u8]) -> Result<Seq<Item>, AllocError> {
    let name = Seq::from_bytes(alloc, b"fo")?;
    let target = Seq::from_bytes(alloc, target)?;
    let item = Item {
        name,
        gfid: Gfid { hi: 0, lo: 2 },
        kind,
        target,
    };
    let mut items = Seq::new(alloc);
    items.push(item)?;
    Ok(items)
}

fn shown(alloc: Global, shows: Shows) -> Result<Result<Seq<Item>, IoError>, AllocError> {
    match shows {
        Nothing => Ok(Ok(Seq::new(alloc))),
        File => Ok(Ok(item(alloc, Kind::File, b"")?)),
        LinkTo(name) => Ok(Ok(item(alloc, Kind::Link, name)?)),
        Fails => Ok(Err(IoError::Quorum {
            set: 0,
            lost: Seq::new(alloc),
        })),
    }
}

// The whole range on one set.
fn layout(alloc: Global, sets: usize, hashed: u8) -> Result<Vec<Option<Span>>, AllocError>
    ensures { IfOk result (λ layout. length layout.items ≡ sets) }
{
    let mut spans = Vec::new(alloc);
    for set in 0..sets {
        if set == hashed as usize {
            spans.push(Some(Span {
                first: 0,
                last: 0xffffffff,
            }))?;
        } else {
            spans.push(None)?;
        }
    }
    Ok(spans)
}

fn names(alloc: Global, count: usize) -> Result<Vec<Seq<u8>>, AllocError>
    requires { count ≤ 3 }
    ensures { IfOk result (λ names. length names.items ≡ count) }
{
    let mut names = Vec::new(alloc);
    for set in 0..count {
        names.push(Seq::from_bytes(alloc, NAMES[set])?)?;
    }
    Ok(names)
}

fn set_of(found: &Found) -> Option<u8> {
    match found {
        Found::Item { set, .. } => Some(*set),
        Found::Absent => None,
        Found::Io(_) => None,
    }
}

// Runs a lookup that has begun, of three replies at most.
fn goes(alloc: Global, lookup: &mut Lookup, case: &Case, first: u8) -> Result<bool, AllocError>
    requires { lookup.old.asked ≡ Some first }
{
    let mut set = first;
    for (place, turn) in case.asked.iter().enumerate() {
        let Some(shows) = case.shows.get(set as usize) else {
            return Ok(false);
        };
        if *turn != set {
            return Ok(false);
        }
        match lookup.answer(set, shown(alloc, *shows)?)? {
            Next::Ask(next) => set = next,
            Next::Done(found) => {
                let at = set_of(&found);
                drop(found);
                return Ok(place + 1 == case.asked.len() && at == case.found);
            }
        }
    }
    Ok(false)
}

fn is_as_wanted(alloc: Global, case: &Case) -> Result<bool, AllocError>
    requires some { 1 ≤ length case.now.shows.now }
    requires few { length case.now.shows.now ≤ 3 }
{
    let count = case.shows.len();
    let names = names(alloc, count)?;
    let layout = layout(alloc, count, case.hashed)?;
    let parent = Gfid { hi: 0, lo: 1 };
    let (mut lookup, first) = Lookup::begin(alloc, parent, b"fo", &layout, &names)?;
    let did = goes(alloc, &mut lookup, case, first);
    drop(lookup);
    did
}

// Whether a case has one to three sets and goes as it says.
fn holds(alloc: Global, case: &Case) -> bool {
    let count = case.shows.len();
    if count < 1 || 3 < count {
        return false;
    }
    matches!(is_as_wanted(alloc, case), Ok(true))
}

#[test]
fn lookups(rt: HostRuntime) {
    for case in &CASES {
        assert!(rt; holds(rt.alloc(), case));
    }
}

fn is_read(job: &Job) -> bool {
    match job {
        Job::Read { .. } => true,
        _ => false,
    }
}

fn reads_names(alloc: Global) -> Result<bool, AllocError> {
    let job = names_job(alloc, Gfid { hi: 0, lo: 1 })?;
    let reads = is_read(&job);
    drop(job);
    Ok(reads)
}

// The reply of a set that has one name.
fn one_name(alloc: Global) -> Result<SetReply, AllocError> {
    let items = item(alloc, Kind::File, b"")?;
    let mut contents = Seq::new(alloc);
    contents.push(Some(Content::Names {
        removed: false,
        items,
    }))?;
    Ok(SetReply::Contents(contents, 5))
}

// What it shows: whether there is a copy, and how many names.
fn shows_one_name(alloc: Global) -> Result<bool, AllocError> {
    let reply = one_name(alloc)?;
    match names_in(alloc, reply) {
        Ok(shown) => Ok(shown.has_copy && shown.items.len() == 1 && shown.place == 5),
        Err(_) => Ok(false),
    }
}

#[test]
fn names_of_a_set(rt: HostRuntime) {
    assert!(rt; matches!(reads_names(rt.alloc()), Ok(true)));
    assert!(rt; matches!(shows_one_name(rt.alloc()), Ok(true)));
}
