ghost use Rattle.std.specs.Prelude.{◌≡◌};
ghost use Rattle.mount_locks.specs.Rule.{answer};
ghost use Rattle.mount_locks.specs.Keys.{call_key, gfid_key};

use fop_types::{Gfid, Seq};
use queue_index::{EXCLUSIVE, Key, Keyed, NAME, SHARED};
use std::alloc::{AllocError, Global};

const CALLS: u8 = 0;

const GFIDS: u8 = 1;

/// One request for a hold: the call that asked, the gfids, whether it holds them shared or exclusive,
/// whether it extends a hold of its call, and whether it is granted or waits.
#[derive(Drop)]
pub struct Request {
    pub call: u32,
    pub gfids: Seq<Gfid>,
    pub shared: bool,
    pub extends: bool,
    pub granted: bool,
}

/// The answer to a request: it is granted at once, or it waits until a release grants it.
#[derive(Clone, Copy, PartialEq, Eq)]
pub enum Held {
    Granted,
    Waiting,
}

impl Held {
    pub(crate) fn of(granted: bool) -> Held
        ensures { result ≡ answer granted }
    {
        if granted {
            return Held::Granted;
        }
        Held::Waiting
    }
}

/// The key of the requests of a call.
pub(crate) fn call_key(call: u32) -> Key
    ensures { result ≡ call_key call }
{
    Key {
        kind: CALLS,
        hi: 0,
        lo: u64::from(call),
        mode: NAME,
    }
}

/// The key of the requests that name a gfid, of the exclusive ones or of the shared ones.
pub(crate) fn gfid_key(gfid: Gfid, shared: bool) -> Key
    ensures { result ≡ gfid_key gfid shared }
{
    let mode = if shared { SHARED } else { EXCLUSIVE };
    Key {
        kind: GFIDS,
        hi: gfid.hi,
        lo: gfid.lo,
        mode,
    }
}

impl Keyed for Request {
    ghost use Rattle.std.specs.Prelude.{refl};
    ghost use Rattle.mount_locks.specs.Keys.{keys_of, marked};

    ghost keys = { keys_of };

    ghost marked = { marked };

    fn key_count(&self) -> usize {
        self.gfids.as_slice().len() + 1
    }

    fn key(&self, at: usize) -> Key {
        if at == 0 {
            return call_key(self.call);
        }
        let gfid = self.gfids.as_slice()[at - 1];
        gfid_key(gfid, self.shared)
    }

    fn mark(&mut self) {
        self.granted = true;
    }

    fn copy(&self, alloc: Global) -> Result<Request, AllocError> {
        let gfids = Seq::from_vec(Vec::from_slice(alloc, self.gfids.as_slice())?);
        Ok(Request {
            call: self.call,
            gfids,
            shared: self.shared,
            extends: self.extends,
            granted: self.granted,
        })
    }

    ghost stays = { λ _. refl };
}
