ghost use Rattle.std.specs.Prelude.{◌≡◌, ◌<◌, true};
ghost use Rattle.wind_words.specs.declared.view.Role.TheVariants.{Hub};
ghost use Rattle.wind_words.specs.Calls.{IsOpen, IsSamePass};

use std::test::*;
use std::thread;
use wind_words::{WindPass, WindWords};
use xlator_law::{Settled, WindNo};

#[derive(Clone, Copy)]
enum Act {
    Settle,
    Bail,
    Collect,
}

// What comes of an act: the word that was seen where it lost, 0 where there was nothing to collect, and
// `None` where it won.
fn outcome(
    words: &WindWords,
    hub: &mut WindPass,
    reader: &mut WindPass,
    w: WindNo,
    act: Act,
) -> Option<u64>
    requires hub_words { hub.old.words ≡ words.now }
    requires reader_words { reader.old.words ≡ words.now }
    requires hub { hub.old.view.role ≡ Hub }
    requires slot { w.slot < words.now.words }
    ensures hub { IsSamePass hub.old hub.new }
    ensures reader { IsSamePass reader.old reader.new }
{
    match act {
        Act::Settle => seen(words.settle(reader, w)),
        Act::Bail => seen(words.bail(hub, w)),
        Act::Collect => { if words.collect(hub, w) { None } else { Some(0) } }
    }
}

fn seen(settled: Settled) -> Option<u64> {
    match settled {
        Settled::Won => None,
        Settled::Lost(word) => Some(word),
    }
}

// Acts on one wind of turn 0, in order, and what comes of each.
const ACTS: [[(Act, Option<u64>); 4]; 4] = [
    [
        (Act::Settle, None),
        (Act::Settle, Some(2)),
        (Act::Bail, Some(2)),
        (Act::Collect, None),
    ],
    [
        (Act::Bail, None),
        (Act::Settle, Some(3)),
        (Act::Collect, None),
        (Act::Settle, Some(4)),
    ],
    [
        (Act::Collect, Some(0)),
        (Act::Bail, None),
        (Act::Bail, Some(3)),
        (Act::Collect, None),
    ],
    [
        (Act::Settle, None),
        (Act::Collect, None),
        (Act::Collect, Some(0)),
        (Act::Bail, Some(4)),
    ],
];

fn comes_as_expected(
    words: &WindWords,
    hub: &mut WindPass,
    reader: &mut WindPass,
    w: WindNo,
    acts: &[(Act, Option<u64>)],
) -> bool
    requires hub_words { hub.old.words ≡ words.now }
    requires reader_words { reader.old.words ≡ words.now }
    requires hub { hub.old.view.role ≡ Hub }
    requires slot { w.slot < words.now.words }
{
    for (act, expected) in acts {
        if outcome(words, hub, reader, w, *act) != *expected {
            return false;
        }
    }
    true
}

#[test]
fn a_wind_ends_once(rt: HostRuntime) -> Result<(), Fail> {
    for acts in &ACTS {
        let (words, mut hub) = WindWords::new(rt.alloc(), 3)?;
        let mut reader = words.split(&mut hub);
        let w = words.open(&mut hub, 2);
        assert!(rt; comes_as_expected(&words, &mut hub, &mut reader, w, acts));
    }
    Ok(())
}

// Bails a wind and collects it. A reader may settle it before, or between the two, and it is collected all the
// same.
fn bail_and_collect(words: &WindWords, hub: &mut WindPass, w: WindNo) -> bool
    requires words { hub.old.words ≡ words.now }
    requires slot { w.slot < words.now.words }
    requires wind { IsOpen hub.old.view w }
    ensures { result ≡ true }
{
    words.bail(hub, w);
    words.collect(hub, w)
}

// A slot comes again at its next turn, and what comes for the turn before finds another word.
#[test]
fn a_slot_comes_again(rt: HostRuntime) -> Result<(), Fail> {
    let (words, mut hub) = WindWords::new(rt.alloc(), 1)?;
    let first = words.open(&mut hub, 0);
    words.settle(&mut hub, first);
    assert!(rt; words.collect(&mut hub, first));
    let second = words.open(&mut hub, 0);
    assert!(rt; second == WindNo { slot: 0, turn: 1 });
    assert!(rt; words.settle(&mut hub, first) == Settled::Lost(5));
    assert!(rt; words.settle(&mut hub, second) == Settled::Won);
    Ok(())
}

// A reader settles, and its pass goes back into the hub's.
#[test]
fn a_reader_settles_and_is_joined(rt: HostRuntime) -> Result<(), Fail> {
    let (words, mut hub) = WindWords::new(rt.alloc(), 4)?;
    let w = words.open(&mut hub, words.count() - 1);
    let mut reader = words.split(&mut hub);
    assert!(rt; words.settle(&mut reader, w) == Settled::Won);
    words.join(&mut hub, reader);
    assert!(rt; bail_and_collect(&words, &mut hub, w));
    Ok(())
}

fn bail_in_thread(words: &WindWords, hub: WindPass, w: WindNo) -> (WindPass, bool)
    requires words { hub.words ≡ words.now }
    requires hub { hub.view.role ≡ Hub }
    requires slot { w.slot < words.now.words }
    ensures { IsSamePass hub result.0 }
{
    let mut hub = hub;
    let won = words.bail(&mut hub, w) == Settled::Won;
    (hub, won)
}

fn settle_in_thread(words: &WindWords, reader: WindPass, w: WindNo) -> bool
    requires words { reader.words ≡ words.now }
    requires slot { w.slot < words.now.words }
{
    let mut reader = reader;
    words.settle(&mut reader, w) == Settled::Won
}

// A reader settles a wind in a thread of its own while the hub bails it: one of the two wins, whichever comes
// first, and the hub collects it.
#[test]
fn one_of_two_threads_wins(rt: HostRuntime) -> Result<(), Fail> {
    for _ in 0..64u32 {
        let (words, mut hub) = WindWords::new(rt.alloc(), 1)?;
        let w = words.open(&mut hub, 0);
        let reader = words.split(&mut hub);
        let ((mut hub, bailed), settled) = thread::join(
            &rt,
            || -> (WindPass, bool)
                requires { (hub.words ≡ words) × (hub.view.role ≡ Hub) × (w.slot < words.words) }
                ensures { IsSamePass hub result.0 }
            { bail_in_thread(&words, hub, w) },
            || settle_in_thread(&words, reader, w),
        );
        assert!(rt; bailed != settled);
        assert!(rt; words.collect(&mut hub, w));
    }
    Ok(())
}
