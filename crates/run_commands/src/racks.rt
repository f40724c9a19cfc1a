//! What a run left, the rack that it goes into, and the end of a rack.
ghost use Rattle.std.specs.Prelude.{◌≡◌, None, Ok, Err, IfOk, OnErr, IfSome, IfNone, IsErrOf};
ghost use Rattle.run_judge.specs.Stopped.{IsStopped};

use hub_calls::Rack;
use run_judge::has_stopped;
use script_lang::Script;
use std::alloc::{AllocError, Global};
use std::mem;
use xlator_law::Stop;

/// Ends a rack, with its bricks and its log.
pub fn end_rack(rack: Rack) {
    drop(rack)
}

/// What a run left goes into the rack where a text was made of it, and ends else.
pub fn put_left(
    made: Result<Option<Vec<u8>>, AllocError>,
    left: Rack,
    rack: &mut Rack,
) -> Result<Option<Vec<u8>>, Stop>
    ensures made { IfOk result (λ o. made ≡ Ok o) }
    ensures put { IfOk result (λ o. IfSome o (λ text. rack.new ≡ left)) }
    ensures unlawful { IfOk result (λ o. IfNone o (rack.new ≡ rack.old)) }
    ensures memory { OnErr result ((result ≡ Err Stop.Mem) × (rack.new ≡ rack.old)) }
{
    match made {
        Ok(Some(text)) => {
            drop(mem::replace(rack, left));
            Ok(Some(text))
        }
        Ok(None) => {
            drop(left);
            Ok(None)
        }
        Err(_) => {
            drop(left);
            Err(Stop::Mem)
        }
    }
}

/// A run that stopped. Where it needed a wind too many, its bricks and its log are left in the rack; `None` where the log
/// doesn't bear that out.
pub fn stopped(
    alloc: Global,
    script: &Script,
    left: Rack,
    stop: Stop,
    rack: &mut Rack,
) -> Result<Option<Vec<u8>>, Stop>
    ensures unlawful { IfOk result (λ o. (o ≡ None) × (rack.new ≡ rack.old)) }
    ensures winds { IsErrOf result Stop.Winds → IsStopped script.now rack.new.log rack.new.bricks }
    ensures memory { IsErrOf result Stop.Mem → rack.new ≡ rack.old }
{
    match stop {
        Stop::Mem => {
            drop(left);
            Err(Stop::Mem)
        }
        Stop::Winds => match has_stopped(alloc, script, &left.log, left.bricks.as_slice()) {
            Ok(true) => {
                drop(mem::replace(rack, left));
                Err(Stop::Winds)
            }
            Ok(false) => {
                drop(left);
                Ok(None)
            }
            Err(_) => {
                drop(left);
                Err(Stop::Mem)
            }
        },
    }
}
