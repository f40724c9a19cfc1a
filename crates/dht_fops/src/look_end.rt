ghost use Rattle.std.specs.Prelude.{◌≡◌, ◌<◌, ◌≤◌, length, IfOk};
ghost use Rattle.dht_fops.specs.code.Purposes.{IsSecondSet};
ghost use Rattle.dht_fops.specs.code.Waits.{course_of, ending_of};
ghost use Rattle.dht_fops.specs.declared.volume.Volume.{Volume};

use crate::drops::{rmdir_found, unlink_found};
use crate::entries::{create_found, lookup_found, mkdir_found};
use crate::look::Seen;
use crate::purpose::Purpose;
use crate::rename_names::{Wanted, source_found, target_found};
use crate::step::Step;
use crate::volume::Volume;
use dht_linkto::{Ended, Found};
use std::alloc::{AllocError, Global};

/// A look ends: by what the name was looked for.
///
/// # Errors
/// Out of memory.
pub(crate) fn end_look(
    alloc: Global,
    volume: Volume,
    purpose: Purpose,
    ended: Ended,
    found: Found,
    seen: Seen,
) -> Result<Step, AllocError>
    requires some { 1 ≤ volume.sets }
    requires hashed { ended.hashed < length ended.names }
    requires second { IsSecondSet purpose (length ended.names) }
    ensures { IfOk result (λ step. course_of volume step ≡ ending_of volume purpose ended.parent ended.name ended.names ended.hashed found seen) }
{
    match purpose {
        Purpose::Lookup => Ok(lookup_found(volume, found, seen)),
        Purpose::Mkdir { mode, drawn } => {
            mkdir_found(alloc, volume, ended, mode, drawn, found, seen)
        }
        Purpose::Create { mode, drawn } => {
            create_found(alloc, volume, ended, mode, drawn, found, seen)
        }
        Purpose::Unlink => unlink_found(alloc, volume, ended, found, seen),
        Purpose::Rmdir => Ok(rmdir_found(volume, ended, found, seen)),
        Purpose::RenameFrom {
            target,
            new_name,
            second,
        } => {
            let wanted = Wanted {
                target,
                new_name,
                second,
            };
            source_found(alloc, volume, ended, wanted, found, seen)
        }
        Purpose::RenameTo { source } => target_found(alloc, volume, source, ended, found, seen),
    }
}
