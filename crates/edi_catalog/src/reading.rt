//! Reading the blocks of a disk.

ghost use Rattle.std.specs.Prelude.{◌≡◌, ◌≤◌, ◌<◌, ◌+◌, ◌*◌, OnErr, OnOk, IfOk, Some, true, drop, length, take};
ghost use Rattle.edi_disk.specs.Shown.{drive_of, IsWorking};
ghost use Rattle.edi_image.specs.Entries.{block_at};
ghost use Rattle.edi_image.specs.Stored.{are_data, is_stored};
ghost use Rattle.edi_catalog.specs.Files.{PageAt, PagesAre, StoredIs};
ghost use Rattle.edi_catalog.specs.Plan.{are_different};
ghost use Rattle.edi_catalog.specs.Reads.{BlockIs, Checks, GivesBlock, GivesBlocks, OthersStay};
ghost use Rattle.edi_image.specs.Finds.{failed};

use edi_disk::{Disk, DiskEnd};
use edi_host::Drive;
use edi_image::{BLOCK, FIRST, MOST_BYTES, MountFault, StoredFile};

/// Block `n` of the disk. No fault but that of the drive comes.
pub(crate) fn block<D: Drive>(disk: &mut Disk<'_, D>, n: u32) -> Result<[u8; BLOCK], MountFault>
    requires in_range { n < D.count (drive_of disk.old) }
    requires works { IsWorking D.contents D.count disk.old }
    ensures checks { Checks D.contents D.count D.faults (failed result) disk.old disk.new (BlockIs result n) }
    ensures gives { IfOk result (λ bytes. GivesBlock n bytes disk.old disk.new) }
    ensures others { OnOk result (OthersStay n disk.old disk.new) }
    ensures fault { OnErr result (failed result ≡ true) }
{
    let mut bytes = [0; BLOCK];
    match disk.page(n, &mut bytes) {
        DiskEnd::Ok => Ok(bytes),
        DiskEnd::Fault => Err(MountFault::Fault),
    }
}

// Puts a page at an address.
fn read_page_at<D: Drive>(
    disk: &mut Disk<'_, D>,
    page: u16,
    at: usize,
    into: &mut [u8],
) -> Result<(), MountFault>
    requires in_range { page < D.count (drive_of disk.old) }
    requires works { IsWorking D.contents D.count disk.old }
    requires room { at + BLOCK ≤ length into.old }
    ensures checks { Checks D.contents D.count D.faults (failed result) disk.old disk.new (PageAt result page at into.old into.new) }
    ensures front { OnOk result (take at into.new ≡ take at into.old) }
    ensures gives { OnOk result (GivesBlock page (take BLOCK (drop at into.new)) disk.old disk.new) }
    ensures others { OnOk result (OthersStay page disk.old disk.new) }
    ensures many { length into.new ≡ length into.old }
    ensures fault { OnErr result (failed result ≡ true) }
{
    match block(disk, u32::from(page)) {
        Ok(bytes) => {
            let (_, rest) = into.split_at_mut(at);
            let (index, _) = rest.split_at_mut(BLOCK);
            index.copy_from_slice(&bytes);
            Ok(())
        }
        Err(fault) => Err(fault),
    }
}

/// Puts pages one after another. No fault but that of the drive comes.
pub(crate) fn read_pages<D: Drive>(
    disk: &mut Disk<'_, D>,
    pages: &[u16],
    into: &mut [u8],
) -> Result<(), MountFault>
    requires works { IsWorking D.contents D.count disk.old }
    requires data { are_data (D.count (drive_of disk.old)) pages.now ≡ true }
    requires different { are_different pages.now ≡ true }
    requires room { BLOCK * length pages.now ≤ length into.old }
    ensures checks { Checks D.contents D.count D.faults (failed result) disk.old disk.new (PagesAre result pages.now into.new) }
    ensures gives { OnOk result (GivesBlocks pages.now (length pages.now) into.new disk.old disk.new) }
    ensures many { length into.new ≡ length into.old }
    ensures fault { OnErr result (failed result ≡ true) }
{
    for (i, page) in pages.iter().enumerate() {
        match read_page_at(disk, *page, BLOCK * i, into) {
            Ok(()) => {}
            Err(fault) => return Err(fault),
        }
    }
    Ok(())
}

/// Puts the bytes of a file, and gives their number. No fault but that of the drive comes.
pub(crate) fn read_stored<D: Drive>(
    disk: &mut Disk<'_, D>,
    file: &StoredFile,
    into: &mut [u8],
) -> Result<u32, MountFault>
    requires works { IsWorking D.contents D.count disk.old }
    requires stored { is_stored (D.count (drive_of disk.old)) (Some file.now) ≡ true }
    requires different { are_different file.now.pages ≡ true }
    requires room { MOST_BYTES ≤ length into.old }
    ensures checks { Checks D.contents D.count D.faults (failed result) disk.old disk.new (StoredIs result file.now into.new) }
    ensures gives { OnOk result (GivesBlocks file.now.pages (length file.now.pages) into.new disk.old disk.new) }
    ensures length { IfOk result (λ n. n ≡ file.now.record_.length) }
    ensures fault { OnErr result (failed result ≡ true) }
{
    match read_pages(disk, file.pages.as_slice(), into) {
        Ok(()) => Ok(file.record.length),
        Err(fault) => Err(fault),
    }
}
