ghost use Rattle.std.specs.Prelude.{◌≡◌, ◌<◌, slice_index};
ghost use Rattle.afr_phases.specs.Locks.{no_locks, granted, stands, standing, keeps, keeping};

use crate::flags::{Flags, names};
use fop_types::Mask;

/// The number of the connection on which each replica granted the lock of the running lock phase.
#[derive(Clone, Copy)]
pub struct Locks {
    pub at: [Option<u32>; 5],
}

impl Locks {
    /// No lock is granted.
    pub fn new() -> Locks
        ensures { result ≡ no_locks }
    {
        Locks { at: [None; 5] }
    }

    /// A replica grants its lock on a connection.
    pub fn grant(&mut self, k: u8, connection: u32)
        requires { k < 5 }
        ensures { self.new ≡ granted self.old k connection }
    {
        self.at[k as usize] = Some(connection);
    }

    /// Whether a replica's lock is still held: it was granted, and on the connection that is open now. `live` names
    /// the replicas with an open connection, and `last` has each replica's last connection number.
    pub fn stands(&self, k: u8, live: Mask, last: &[u32]) -> bool
        requires { k < 5 }
        ensures { result ≡ stands self.now k live last.now }
    {
        let Some(connection) = self.at[k as usize] else {
            return false;
        };
        names(live, k) && number_at(last, k) == connection
    }

    /// The replicas whose lock is still held: to these an unlock goes.
    pub fn standing(&self, live: Mask, last: &[u32]) -> Flags
        ensures { result ≡ standing self.now live last.now }
    {
        [
            self.stands(0, live, last),
            self.stands(1, live, last),
            self.stands(2, live, last),
            self.stands(3, live, last),
            self.stands(4, live, last),
        ]
    }

    // Whether a replica has lost no lock: it granted none, or its lock is still held.
    fn keeps(&self, k: u8, live: Mask, last: &[u32]) -> bool
        requires { k < 5 }
        ensures { result ≡ keeps self.now k live last.now }
    {
        self.at[k as usize].is_none() || self.stands(k, live, last)
    }

    /// The replicas that have lost no lock. The others granted one on a connection that has ended since.
    pub fn keeping(&self, live: Mask, last: &[u32]) -> Flags
        ensures { result ≡ keeping self.now live last.now }
    {
        [
            self.keeps(0, live, last),
            self.keeps(1, live, last),
            self.keeps(2, live, last),
            self.keeps(3, live, last),
            self.keeps(4, live, last),
        ]
    }
}

/// The last connection number of a replica, 0 where the list has none.
pub(crate) fn number_at(last: &[u32], k: u8) -> u32
    ensures { result ≡ slice_index last.now k }
{
    match last.get(k as usize) {
        Some(number) => *number,
        None => 0,
    }
}
