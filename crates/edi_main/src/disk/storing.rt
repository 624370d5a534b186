//! Storing a file in place of any file of its title, protected or not.

ghost use Rattle.std.specs.Prelude.{◌≡◌, ◌≤◌, length, Err};
ghost use Rattle.edi_told.specs.Told.{WhereTold};
ghost use Rattle.edi_calls.specs.State.{most_bytes};
ghost use Rattle.edi_disk.specs.Shown.{drive_of};
ghost use Rattle.edi_catalog.specs.Mounted.{IsMounted, disk_of};
ghost use Rattle.edi_statuses.specs.Commands.{kind_of_bytes};
ghost use Rattle.edi_main.specs.disk.OnDrive.{KeepsCatalog, StoresOver, stands};

use edi_calls::blocks_of;
use edi_catalog::{CatEnd, Catalog, FileKind, Title};
use edi_host::Drive;

/// A file is code where its first two bytes are those of a code file, else text.
fn kind_of_bytes(bytes: &[u8]) -> FileKind
    ensures exact { result ≡ kind_of_bytes bytes.now }
{
    if bytes.len() >= 2 && bytes[0] == 0xED && bytes[1] == 0x15 {
        FileKind::Code
    } else {
        FileKind::Text
    }
}

/// The answer of a store stands: the file was not protected.
fn stands(answer: &Result<(), CatEnd>) -> bool
    ensures exact { result ≡ stands answer.now }
{
    !matches!(answer, Err(CatEnd::Protected))
}

/// Stores bytes unprotected, in place of any file of this title. That the disk is full is decided before the file is released.
pub(crate) fn store_over<D: Drive>(
    catalog: &mut Catalog<'_, '_, D>,
    title: &Title,
    bytes: &[u8],
) -> Result<(), CatEnd>
    requires mounted { IsMounted D.contents D.count catalog.old }
    requires most { length bytes.now ≤ most_bytes }
    ensures leaves { WhereTold (D.contents (drive_of (disk_of catalog.old))) (D.contents (drive_of (disk_of catalog.new)))
        (StoresOver result title.now bytes.now) }
    ensures keeps { KeepsCatalog D.count D.faults (result ≡ Err CatEnd.Fault) catalog.old catalog.new }
{
    let kind = kind_of_bytes(bytes);
    let answer = catalog.store(title, kind, bytes);
    if stands(&answer) {
        return answer;
    }
    let wanted = blocks_of(bytes.len()) as u32;
    let free = catalog.free();
    if free < wanted {
        return Err(CatEnd::Full { wanted, free });
    }
    match catalog.release(title) {
        Ok(()) => catalog.store(title, kind, bytes),
        Err(why) => Err(why),
    }
}
