ghost use Rattle.std.specs.Prelude.{◌≡◌, ◌<◌, IfSome, IfNone};
ghost use Rattle.xlator_law.specs.Numbers.{wind_number, open_before};

use std::alloc::AllocError;

// What an open before a request adds to the slot of the request's wind.
const OPEN_BEFORE: u32 = 2147483648;

/// The number of a wind: a slot of the frame stack, and the turn of that slot. No two winds have the
/// same number, over all graphs of the mount.
#[derive(Debug, Clone, Copy, PartialEq, Eq)]
pub struct WindNo {
    pub slot: u32,
    pub turn: u32,
}

impl WindNo {
    /// The wind as one number, as it is on the wire: the turn in the upper half, the slot in the lower.
    pub fn number(self) -> u64
        ensures { result ≡ wind_number self }
    {
        self.turn as u64 * 4294967296 + self.slot as u64
    }

    /// The wind of a number on the wire; each number is that of one wind.
    pub fn of_number(number: u64) -> WindNo
        ensures number { wind_number result ≡ number }
        ensures back { (w : WindNo) → w.slot < 4294967296 → wind_number w ≡ number → result ≡ w }
    {
        WindNo {
            slot: (number % 4294967296) as u32,
            turn: (number / 4294967296) as u32,
        }
    }

    /// The wind of an open that goes before the request of this one. The slot is below 2,147,483,648.
    pub fn open_before(self) -> WindNo
        requires { self.slot < 2147483648 }
        ensures { result ≡ open_before self }
    {
        WindNo {
            slot: self.slot + OPEN_BEFORE,
            turn: self.turn,
        }
    }

    /// The request's own wind, where this is that of an open before a request, and else `None`.
    pub fn request(self) -> Option<WindNo>
        ensures open { IfSome result (λ w. self ≡ open_before w) }
        ensures other { IfNone result (self.slot < 2147483648) }
    {
        if self.slot < OPEN_BEFORE {
            return None;
        }
        Some(WindNo {
            slot: self.slot - OPEN_BEFORE,
            turn: self.turn,
        })
    }
}

/// Which frame opened a wind, and in which of the frame's slots.
#[derive(Clone, Copy, PartialEq, Eq)]
pub struct Parent {
    pub frame: u32,
    pub slot: u8,
}

/// Where a frame is: its graph, its call, the node that it is of, and the wind that opened it.
/// `parent` is `None` for the frame of a call's own fop.
#[derive(Clone, Copy, PartialEq, Eq)]
pub struct Place {
    pub graph: u32,
    pub call: u32,
    pub node: u16,
    pub parent: Option<WindNo>,
}

/// What a fop enters as: the number of its frame, and the call that the frame is of. No other frame that is
/// open has this number.
#[derive(Clone, Copy, PartialEq, Eq)]
pub struct Entry {
    pub frame: u32,
    pub call: u32,
}

/// What came of settling a wind: it was pending and this step ended that, or it was not, and the word
/// that was seen instead.
#[derive(Clone, Copy, PartialEq, Eq)]
pub enum Settled {
    Won,
    Lost(u64),
}

/// Why a call of the graphs ended early.
#[derive(Clone, Copy, PartialEq, Eq)]
pub enum Stop {
    /// Out of memory.
    Mem,
    /// A further wind was needed, and 4,294,967,295 were opened.
    Winds,
}

impl From<AllocError> for Stop {
    ghost use Rattle.std.specs.Prelude.{◌≡◌};
    ghost use Rattle.xlator_law.specs.declared.winds.Stop.TheVariants.{Mem};

    ghost from_gives = { λ _ r. r ≡ Mem };

    fn from(_: AllocError) -> Stop {
        Stop::Mem
    }
}
