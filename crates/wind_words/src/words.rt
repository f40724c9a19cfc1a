ghost use Rattle.std.specs.Prelude.{◌≡◌, ◌≢◌, ◌+◌, ◌*◌, ◌<◌, ◌≤◌, ◌^◌, true, IfOk};
ghost use Rattle.xlator_law.specs.declared.winds.Settled.TheVariants.{Won, Lost};
ghost use Rattle.wind_words.specs.declared.view.Role.TheVariants.{Hub, Reader};
ghost use Rattle.wind_words.specs.Calls.{first_hub, new_reader, with_reader, joined, with_view, IsFree, IsOpen, KnowsEnd, Opens, Settles, Bails, Collects, AreApart};

use crate::pass::WindPass;
use crate::rule::{Bail, CollectBailed, CollectReplied, Look, Open, Reading, Rule, Settle};
use crate::view::View;
use atomic_table::Table;
use std::alloc::{AllocError, Global};
use std::marker::Model;
use xlator_law::{Settled, WindNo};

/// The words of winds, one for each slot, which threads share. Contracts see which words they are; `words`
/// of it is their number.
#[derive(Drop)]
pub struct WindWords {
    table: Table<(), View, usize, Rule, Global>,
}

impl Model for WindWords {
    ghost use Rattle.std.specs.Prelude.{◌≡◌, ◌<◌, ◌^◌};
    ghost use Rattle.atomic_table.specs.Seated.{TableId, table_id_coded};

    ghost Value = { TableId };

    ghost coded = { table_id_coded };

    ghost view = { λ t. t.table.shared.table_id };

    ghost invariant = { λ t. (t.table.shared.key ≡ t.table.shared.table_id.words) × (0 < t.table.shared.table_id.words) × (t.table.shared.table_id.words < 2 ^ 32) };
}

// What the word of a turn is above its free one.
const PENDING: u64 = 1;

const REPLIED: u64 = 2;

const BAILED: u64 = 3;

// The free word of the next turn.
const NEXT: u64 = 4;

fn word_at(turn: u32, state: u64) -> u64
    requires { state ≤ 4 }
    ensures { result ≡ turn * 4 + state }
{
    turn as u64 * 4 + state
}

// What a step found that ends a pending word.
fn settled(found: u64, pending: u64) -> Settled
    ensures won { found ≡ pending → result ≡ Won }
    ensures lost { found ≢ pending → result ≡ Lost found }
{
    if found == pending {
        Settled::Won
    } else {
        Settled::Lost(found)
    }
}

impl WindWords {
    /// So many words, at least one, all free at turn 0, and the hub's pass.
    ///
    /// # Errors
    /// Out of memory.
    pub fn new(alloc: Global, words: u32) -> Result<(WindWords, WindPass), AllocError>
        requires { 0 < words }
        ensures count { IfOk result (λ r. r.0.words ≡ words) }
        ensures hub { IfOk result (λ r. r.1 ≡ record { words = r.0; view = first_hub }) }
    {
        let count = words as usize;
        let zeros = vec![in alloc; 0u64; count]?;
        let (table, seat) = Table::of_words(alloc, &zeros, &count)?;
        Ok((WindWords { table }, WindPass { seat }))
    }

    /// The number of words.
    pub fn count(&self) -> u32
        ensures { result ≡ self.now.words }
    {
        self.table.word_count() as u32
    }

    /// Opens the next wind of a slot: its word goes from free to pending.
    pub fn open(&self, hub: &mut WindPass, slot: u32) -> WindNo
        requires words { hub.old.words ≡ self.now }
        requires hub { hub.old.view.role ≡ Hub }
        requires slot { slot < self.now.words }
        requires free { IsFree hub.old.view slot }
        ensures opens { Opens hub.old slot result hub.new }
        ensures is_open { IsOpen hub.new.view result }
    {
        let table = &self.table.shared;
        let found = table.fetch_add::<Open>(&mut hub.seat, slot as usize, PENDING);
        WindNo {
            slot,
            turn: (found / 4) as u32,
        }
    }

    /// Settles a wind as replied, if its word is pending. Either way it has ended then, which the hub knows from
    /// its own settle.
    pub fn settle(&self, pass: &mut WindPass, w: WindNo) -> Settled
        requires words { pass.old.words ≡ self.now }
        requires slot { w.slot < self.now.words }
        ensures settles { Settles pass.old w result pass.new }
        ensures known { IsOpen pass.old.view w → KnowsEnd pass.new.view w }
    {
        let pending = word_at(w.turn, PENDING);
        let found = self.table.shared.compare_exchange::<Settle>(
            &mut pass.seat,
            w.slot as usize,
            pending,
            word_at(w.turn, REPLIED),
        );
        settled(found, pending)
    }

    /// Ends a wind as bailed, if its word is pending. Either way it has ended then.
    pub fn bail(&self, hub: &mut WindPass, w: WindNo) -> Settled
        requires words { hub.old.words ≡ self.now }
        requires hub { hub.old.view.role ≡ Hub }
        requires slot { w.slot < self.now.words }
        ensures bails { Bails hub.old w result hub.new }
        ensures known { IsOpen hub.old.view w → KnowsEnd hub.new.view w }
    {
        let pending = word_at(w.turn, PENDING);
        let found = self.table.shared.compare_exchange::<Bail>(
            &mut hub.seat,
            w.slot as usize,
            pending,
            word_at(w.turn, BAILED),
        );
        settled(found, pending)
    }

    /// Frees the slot of a wind that was replied or bailed, for its next turn. `false` comes exactly where
    /// the word was neither for this wind's turn, and so never for a wind of which the pass knows that it ended.
    pub fn collect(&self, hub: &mut WindPass, w: WindNo) -> bool
        requires words { hub.old.words ≡ self.now }
        requires hub { hub.old.view.role ≡ Hub }
        requires slot { w.slot < self.now.words }
        ensures collects { Collects hub.old w result hub.new }
        ensures known { KnowsEnd hub.old.view w → result ≡ true }
    {
        let replied = word_at(w.turn, REPLIED);
        let bailed = word_at(w.turn, BAILED);
        let next = word_at(w.turn, NEXT);
        let slot = w.slot as usize;
        let table = &self.table.shared;
        let found = table.compare_exchange::<CollectReplied>(&mut hub.seat, slot, replied, next);
        if found != bailed {
            return found == replied;
        }
        // Only the hub changes a word that is bailed, so this step finds it so.
        table.compare_exchange::<CollectBailed>(&mut hub.seat, slot, bailed, next);
        true
    }

    /// Splits off a reader's pass, with nothing won or lost.
    pub fn split(&self, pass: &mut WindPass) -> WindPass
        requires { pass.old.words ≡ self.now }
        ensures pass { pass.new ≡ with_view pass.old (with_reader pass.old.view) }
        ensures reader { result ≡ record { words = self.now; view = new_reader } }
    {
        WindPass {
            seat: self.table.shared.split_seat::<Reading>(&mut pass.seat),
        }
    }

    /// Takes in a reader's pass: what it won and lost is now this pass's. No wind was won by both.
    pub fn join(&self, pass: &mut WindPass, other: WindPass)
        requires words { pass.old.words ≡ self.now }
        requires other_words { other.words ≡ self.now }
        requires reader { other.view.role ≡ Reader }
        ensures pass { pass.new ≡ with_view pass.old (joined pass.old.view other.view) }
        ensures apart { AreApart pass.old.view other.view }
    {
        let WindPass { seat } = other;
        self.table.shared.join_seat::<Reading>(&mut pass.seat, seat);
        self.table.shared.load::<Look>(&mut pass.seat, 0);
    }
}
