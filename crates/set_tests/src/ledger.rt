ghost use Rattle.std.specs.Prelude.{◌≡◌, [], ◌∷◌, Some, IsSome, IfOk};
ghost use Rattle.afr_ledger.specs.Changes.{numbered, without};

use afr_ledger::{Ledger, Unsettled};
use fop_types::{Aspect, Cell, Entry, Gfid, Seq};
use std::alloc::{AllocError, Global};
use std::process::Abort;
use std::test::*;

const EFFECT: Entry = Entry { call: 4, part: 1 };

fn data(lo: u64) -> Cell
    ensures { result ≡ record { gfid = record { hi = 0; lo = lo }; aspect = Aspect.Data } }
{
    Cell {
        gfid: Gfid { hi: 0, lo },
        aspect: Aspect::Data,
    }
}

// A change of one file's data.
fn change_of(
    alloc: Global,
    change: u64,
    set: u8,
    file: u64,
    effect: Option<Entry>,
) -> Result<Unsettled<Cell>, AllocError>
    ensures { IfOk result (λ u. u ≡ record { change = change; set = set; cells = record { gfid = record { hi = 0; lo = file }; aspect = Aspect.Data } ∷ []; effect = effect }) }
{
    let mut cells = Seq::new(alloc);
    cells.push(data(file))?;
    Ok(Unsettled {
        change,
        set,
        cells,
        effect,
    })
}

// Change 1 of file 5 on set 0, and change 2 of file 5 on set 1.
fn two_changes(alloc: Global) -> Result<Ledger<Cell>, AllocError>
    ensures first { IfOk result (λ l. IsSome (numbered 1 l.unsettled)) }
    ensures second { IfOk result (λ l. IsSome (numbered 2 (without 1 l.unsettled))) }
    ensures history { IfOk result (λ l. l.history ≡ []) }
{
    let mut ledger = Ledger::new(alloc);
    let first = ledger.draw();
    let second = ledger.draw();
    ledger.begin(alloc, change_of(alloc, first, 0, 5, Some(EFFECT))?)?;
    ledger.begin(alloc, change_of(alloc, second, 1, 5, None)?)?;
    Ok(ledger)
}

// Set, two files, and the least change that touches one of them.
const TOUCHING: [(u8, u64, u64, Option<u64>); 5] = [
    (0, 5, 6, Some(1)),
    (0, 4, 5, Some(1)),
    (0, 6, 7, None),
    (1, 5, 6, Some(2)),
    (2, 5, 6, None),
];

#[test]
fn changes_by_their_cells(rt: HostRuntime) -> Result<(), Fail> {
    let ledger = two_changes(rt.alloc())?;
    for (set, first, second, change) in &TOUCHING {
        let found = ledger.touching(*set, &[data(*first), data(*second)]);
        assert!(rt; found == *change);
    }
    Ok(())
}

// One change is adopted and the other dropped: one entry, and nothing is unsettled.
#[test]
fn decisions(rt: HostRuntime) -> Result<(), Fail> {
    let mut ledger = two_changes(rt.alloc())?;
    let done = are_decided(&rt, rt.alloc(), &mut ledger);
    drop(ledger);
    done
}

fn are_decided(rt: &impl Abort, alloc: Global, ledger: &mut Ledger<Cell>) -> Result<(), Fail>
    requires first { IsSome (numbered 1 ledger.old.unsettled) }
    requires second { IsSome (numbered 2 (without 1 ledger.old.unsettled)) }
    requires history { ledger.old.history ≡ [] }
{
    assert!(rt; ledger.decide(alloc, 1, true)? == Some(1));
    assert!(rt; ledger.decide(alloc, 2, false)?.is_none());
    assert!(rt; ledger.unsettled(1).is_none());
    assert!(rt; ledger.touching(1, &[data(5)]).is_none());
    assert!(rt; ledger.history().len() == 1);
    Ok(())
}
