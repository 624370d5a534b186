//! The blocks with the entries, which a mounted catalogue keeps.

ghost use Rattle.std.specs.Prelude.{◌≡◌, ◌≤◌, ◌⊎◌, IfErr, IfOk};
ghost use Rattle.edi_disk.specs.Shown.{drive_of, IsWorking};
ghost use Rattle.edi_image.specs.Finds.{failed};
ghost use Rattle.edi_catalog.specs.Reads.{Checks};
ghost use Rattle.edi_catalog.specs.Mounted.{AreCached, AreEntries, AreWhole};

use crate::reading::block;
use edi_disk::Disk;
use edi_host::Drive;
use edi_image::{BLOCK, FIRST, MountFault};
use std::alloc::Global;

/// Reads the blocks with the entries.
pub(crate) fn entry_blocks<D: Drive>(
    alloc: Global,
    disk: &mut Disk<'_, D>,
) -> Result<Vec<[u8; BLOCK]>, MountFault>
    requires works { IsWorking D.contents D.count disk.old }
    requires catalogue { FIRST ≤ D.count (drive_of disk.old) }
    ensures checks { Checks D.contents D.count D.faults (failed result) disk.old disk.new (λ blocks. IfOk result (λ kept. AreEntries kept.items blocks)) }
    ensures whole { IfOk result (λ kept. AreWhole kept.items) }
    ensures cached { IfOk result (λ kept. AreCached kept.items disk.new) }
    ensures fault { IfErr result (λ why. (why ≡ MountFault.Fault) ⊎ (why ≡ MountFault.NoMemory)) }
{
    let mut entries = Vec::new(alloc);
    for i in 0..32 {
        let bytes = match block(disk, 1 + i) {
            Ok(bytes) => bytes,
            Err(fault) => return Err(fault),
        };
        if entries.push(bytes).is_err() {
            return Err(MountFault::NoMemory);
        }
    }
    Ok(entries)
}
