//! The maps of a file.

ghost use Rattle.std.specs.Prelude.{◌≡◌, ◌≤◌, ◌<◌, ◌+◌, ◌++◌, OnOk, IfErr, IfOk, length, true, []};
ghost use Rattle.arrayvec.specs.ArrayVec.{array_vec_len};
ghost use Rattle.edi_disk.specs.Shown.{drive_of, IsWorking};
ghost use Rattle.edi_calls.specs.State.{pages_of};
ghost use Rattle.edi_image.specs.Rules.{first_broken};
ghost use Rattle.edi_image.specs.Entries.{block_at, is_data};
ghost use Rattle.edi_image.specs.Image.{map_rules, maps_rules, numbers_in, numbers_of};
ghost use Rattle.edi_image.specs.Stored.{are_data, is_record};
ghost use Rattle.edi_catalog.specs.Reads.{Checks, EntriesStay};
ghost use Rattle.edi_catalog.specs.Taken.{AreTaken, TakesMap};
ghost use Rattle.edi_catalog.specs.Counted.{IsInRange};
ghost use Rattle.edi_image.specs.Finds.{Finds, failed, Takes};

use crate::reading::block;
use edi_disk::Disk;
use edi_host::Drive;
use edi_image::{
    FIRST, FileRecord, MAP_PAGES, MountFault, PAGES, Pages, check_pages, pages_of, read_numbers,
    short_at,
};

/// Checks one map block of the file in a slot, which has so many pages, and puts the page numbers behind the others.
fn check_map<D: Drive>(
    disk: &mut Disk<'_, D>,
    used: &mut Vec<u16>,
    slot: u8,
    map: u16,
    count: usize,
    into: &mut Pages,
) -> Result<(), MountFault>
    requires works { IsWorking D.contents D.count disk.old }
    requires on_drive { is_data FIRST (D.count (drive_of disk.old)) map ≡ true }
    requires most { count ≤ 255 }
    requires room { array_vec_len into.old + count ≤ PAGES }
    ensures checks { Checks D.contents D.count D.faults (failed result) disk.old disk.new
        (λ blocks. Finds result (first_broken used.old.items (map_rules FIRST blocks slot count map))
        (λ _. Takes used.old.items used.new.items (map_rules FIRST blocks slot count map) into.old.items into.new.items
        (numbers_in (block_at blocks map) count))) }
    ensures entries { OnOk result (EntriesStay disk.old disk.new) }
    ensures taken { OnOk result (TakesMap map used.old.items used.new.items into.old.items into.new.items) }
    ensures faults { IfErr result (IsInRange (D.count (drive_of disk.old))) }
    ensures pages { OnOk result (length into.new.items ≡ length into.old.items + count) }
    ensures range { OnOk result (are_data (D.count (drive_of disk.old)) into.old.items ≡ true → are_data (D.count (drive_of disk.old)) into.new.items ≡ true) }
{
    if used.contains(&map) {
        return Err(MountFault::Shared(map));
    }
    if used.push(map).is_err() {
        return Err(MountFault::NoMemory);
    }
    let blocks = disk.blocks();
    let bytes = match block(disk, u32::from(map)) {
        Ok(bytes) => bytes,
        Err(fault) => return Err(fault),
    };
    if usize::from(short_at(&bytes, 0)) != count {
        return Err(MountFault::Entry(slot));
    }
    let before = into.len();
    read_numbers(&bytes, count, into);
    let (_, numbers) = into.as_slice().split_at(before);
    check_pages(used, slot, FIRST, blocks, numbers)
}

/// Checks the maps of the file in a slot, and gives its page numbers.
pub(crate) fn read_maps<D: Drive>(
    disk: &mut Disk<'_, D>,
    used: &mut Vec<u16>,
    slot: u8,
    file: &FileRecord,
) -> Result<Pages, MountFault>
    requires works { IsWorking D.contents D.count disk.old }
    requires fits { is_record (D.count (drive_of disk.old)) file.now ≡ true }
    ensures checks { Checks D.contents D.count D.faults (failed result) disk.old disk.new
        (λ blocks. Finds result (first_broken used.old.items (maps_rules FIRST blocks slot (pages_of file.now.length) file.now.maps))
        (λ pages. Takes used.old.items used.new.items (maps_rules FIRST blocks slot (pages_of file.now.length) file.now.maps)
        [] pages.items (numbers_of blocks (pages_of file.now.length) file.now.maps))) }
    ensures entries { OnOk result (EntriesStay disk.old disk.new) }
    ensures taken { IfOk result (λ pages. AreTaken used.old.items used.new.items (file.now.maps ++ pages.items)) }
    ensures faults { IfErr result (IsInRange (D.count (drive_of disk.old))) }
    ensures pages { IfOk result (λ pages. length pages.items ≡ pages_of file.now.length) }
    ensures range { IfOk result (λ pages. are_data (D.count (drive_of disk.old)) pages.items ≡ true) }
{
    let count = pages_of(file.length) as usize;
    let first = count.min(MAP_PAGES as usize);
    let mut into = Pages::new();
    match check_map(disk, used, slot, file.first_map, first, &mut into) {
        Ok(()) => {}
        Err(fault) => return Err(fault),
    }
    match file.second_map {
        None => Ok(into),
        Some(map) => match check_map(disk, used, slot, map, count - first, &mut into) {
            Ok(()) => Ok(into),
            Err(fault) => Err(fault),
        },
    }
}
