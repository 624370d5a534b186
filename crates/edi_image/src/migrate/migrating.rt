//! Making an image of version 2 of one of version 1.

ghost use Rattle.std.specs.Prelude.{◌≡◌, ◌≤◌, ◌<◌, ◌+◌, ◌++◌, ◌*◌, drop, length, MatchResult, true};
ghost use Rattle.edi_told.specs.Faults.{CountRose};
ghost use Rattle.edi_told.specs.Told.{WhereTold};
ghost use Rattle.edi_host.specs.BytesAsBlocks.{blocks_of};
ghost use Rattle.edi_calls.specs.State as calls;
ghost use Rattle.edi_image.specs.migrate.OldImage.{old_slots_of};
ghost use Rattle.edi_image.specs.migrate.OldFiles.{old_files_of};
ghost use Rattle.edi_image.specs.Stored.{blocks_taken};
ghost use Rattle.edi_image.specs.migrate.Migrated.{AreStored, HasRoom, IfFull, MigrateAnswers, MigrateCounts, MigrateLeaves, MigrateTouches, BlocksLeave};
ghost use Rattle.edi_image.specs.migrate.Migrated.{migrated_bytes, refusal, refuses};

use crate::migrate::building::image_bytes;
use crate::migrate::old::read_old_image;
use crate::{BLOCK, MountFault, blocks_taken};
use edi_host::{Drive, DriveEnd, ResizeEnd};
use std::alloc::Global;

/// How a migration ended.
#[derive(Clone, Copy, Debug, PartialEq, Eq, Drop)]
pub enum MigrateEnd {
    /// The drive is an image with the files of the old one, in their slots.
    Ok,
    /// The first rule of images of version 1 that the old image breaks, never `Fault` or `NoMemory`; nothing has changed.
    Image(MountFault),
    /// The files take more blocks than are behind the catalogue; nothing has changed.
    Full {
        /// The blocks that they take.
        wanted: u32,
        /// The blocks behind the catalogue.
        free: u32,
    },
    /// The drive has failed; nothing is known of its blocks.
    Fault,
    /// There was not enough memory; nothing has changed.
    NoMemory,
}

/// The number of blocks of the catalogue.
const CATALOGUE: u32 = 33;

// The answer to a fault that was found in the old image.
fn refusal(fault: MountFault) -> MigrateEnd
    ensures { result ≡ refusal fault }
{
    match fault {
        MountFault::NoMemory => MigrateEnd::NoMemory,
        other => MigrateEnd::Image(other),
    }
}

// Checks an image of version 1 and its room, and gives the bytes of the new image of so many blocks.
fn new_image(alloc: Global, count: u32, old: &[[u8; BLOCK]]) -> Result<Vec<u8>, MigrateEnd>
    requires least { 64 ≤ count }
    requires most { count ≤ 4096 }
    ensures { MatchResult result
        (λ bytes. HasRoom count (blocks_taken (old_files_of old.now)) old.now × (bytes.items ≡ migrated_bytes old.now count (old_files_of old.now))
        × AreStored old.now)
        (λ end. (refuses end ≡ true) × MigrateAnswers end count (blocks_taken (old_files_of old.now)) old.now × IfFull end (AreStored old.now)) }
{
    let files = match read_old_image(alloc, old) {
        Ok(files) => files,
        Err(fault) => return Err(refusal(fault)),
    };
    let wanted = blocks_taken(&files);
    let free = count - CATALOGUE;
    if wanted > free {
        return Err(MigrateEnd::Full { wanted, free });
    }
    match image_bytes(alloc, count as u16, old, &files) {
        Ok(bytes) => Ok(bytes),
        Err(_) => Err(MigrateEnd::NoMemory),
    }
}

// Writes blocks to the drive, from the first on.
fn write_blocks<D: Drive>(drive: &mut D, blocks: &[[u8; BLOCK]]) -> DriveEnd
    requires room { length blocks.now ≤ D.count drive.old }
    requires most { length blocks.now ≤ 4096 }
    ensures leaves { WhereTold (D.contents drive.old) (D.contents drive.new) (BlocksLeave result blocks.now) }
    ensures count { D.count drive.new ≡ D.count drive.old }
    ensures later { D.faults drive.old ≤ D.faults drive.new }
    ensures cause { result ≡ DriveEnd.Failed → CountRose (D.faults drive.old) (D.faults drive.new) }
{
    for (n, block) in blocks.iter().enumerate() {
        match drive.write(n as u32, block) {
            DriveEnd::Ok => {}
            DriveEnd::Failed => return DriveEnd::Failed,
        }
    }
    DriveEnd::Ok
}

/// Makes the drive an image of `blocks` blocks, 64 to 4096, with the files of the image of version 1 whose bytes are `old`, in
/// the slots of the same numbers. Bytes behind the whole blocks of `old` are not seen. What was on the drive is lost.
///
/// The old image is checked first, then the room; all memory is taken before the first block is written, that of the drive last.
pub fn migrate<D: Drive>(alloc: Global, drive: &mut D, blocks: u32, old: &[u8]) -> MigrateEnd
    requires least { 64 ≤ blocks }
    requires most { blocks ≤ 4096 }
    ensures answers { MigrateAnswers result blocks (calls.blocks_taken (old_slots_of (blocks_of old.now))) (blocks_of old.now) }
    ensures untouched { MigrateTouches result drive.old drive.new }
    ensures leaves { WhereTold (D.contents drive.old) (D.contents drive.new) (MigrateLeaves result blocks (blocks_of old.now)) }
    ensures count { MigrateCounts result blocks (D.count drive.old) (D.count drive.new) }
    ensures later { D.faults drive.old ≤ D.faults drive.new }
    ensures cause { result ≡ MigrateEnd.Fault → CountRose (D.faults drive.old) (D.faults drive.new) }
{
    let (old, _) = old.as_chunks::<BLOCK>();
    let bytes = match new_image(alloc, blocks, old) {
        Ok(bytes) => bytes,
        Err(end) => return end,
    };
    let (image, _) = bytes.as_slice().as_chunks::<BLOCK>();
    match drive.resize(alloc, blocks) {
        ResizeEnd::Ok => match write_blocks(drive, image) {
            DriveEnd::Ok => MigrateEnd::Ok,
            DriveEnd::Failed => MigrateEnd::Fault,
        },
        ResizeEnd::Failed => MigrateEnd::Fault,
        ResizeEnd::NoMemory => MigrateEnd::NoMemory,
    }
}
