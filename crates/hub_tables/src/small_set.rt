//! Sets of small numbers.
ghost use Rattle.std.specs.Prelude.{◌≡◌, ◌≤◌, ◌==◌, length, slice_get};
ghost use Rattle.hub_tables.specs.SmallSets.{no_numbers, bit_of, has, Adds, Drops, numbers};

/// A set of numbers below 64: of bricks, of sessions or of volfiles.
#[derive(Clone, Copy, PartialEq, Eq)]
pub struct SmallSet(u64);

// The bit of a number, and none of a number from 64 on.
fn bit(number: u8) -> u64
    ensures { result ≡ bit_of number }
{
    if number < 64 { 1 << number } else { 0 }
}

impl SmallSet {
    /// The empty set.
    pub fn new() -> SmallSet
        ensures { result ≡ no_numbers }
    {
        SmallSet(0)
    }

    /// Whether a number is in the set.
    pub fn has(self, number: u8) -> bool
        ensures { result ≡ has self number }
    {
        self.0 & bit(number) != 0
    }

    /// Whether no number is in the set.
    pub fn is_empty(self) -> bool
        ensures { result ≡ (length (numbers self) == 0) }
    {
        self.len() == 0
    }

    /// How many numbers are in the set.
    pub fn len(self) -> u32
        ensures value { result ≡ length (numbers self) }
        ensures few { result ≤ 64 }
    {
        self.0.count_ones()
    }

    /// The set with a number more, if that is below 64.
    pub fn with(self, number: u8) -> SmallSet
        ensures { Adds self number result }
    {
        SmallSet(self.0 | bit(number))
    }

    /// The set without a number.
    pub fn without(self, number: u8) -> SmallSet
        ensures { Drops self number result }
    {
        SmallSet(self.0 & !bit(number))
    }

    /// The number with so many lower ones in the set.
    #[tactic(auto, using(crate::proofs::SmallSets::nth_found, crate::proofs::SmallSets::nth_next, crate::proofs::SmallSets::nth_skips, crate::proofs::SmallSets::nth_ends))]
    pub fn nth(self, at: u32) -> Option<u8>
        ensures { result ≡ slice_get (numbers self) at }
    {
        let mut lower = at;
        for number in 0..64 {
            if !self.has(number) {
                continue;
            }
            if lower == 0 {
                return Some(number);
            }
            lower -= 1;
        }
        None
    }
}
