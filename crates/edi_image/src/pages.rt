//! The page numbers of a map block.

ghost use Rattle.std.specs.Prelude.{◌≡◌, ◌≤◌, ◌+◌, ◌*◌, ◌++◌, OnOk, length, drop, true, false};
ghost use Rattle.std.specs.List.{list_all};
ghost use Rattle.arrayvec.specs.ArrayVec.{array_vec_len};
ghost use Rattle.edi_image.specs.Rules.{first_broken, page_rules};
ghost use Rattle.edi_image.specs.Entries.{is_data};
ghost use Rattle.edi_image.specs.Image.{numbers_in};
ghost use Rattle.edi_image.specs.Finds.{Finds, failed};

use crate::blocks::BLOCK;
use crate::faults::MountFault;
use crate::fields::{is_data, short_at};
use arrayvec::ArrayVec;

/// The greatest number of pages of a file.
pub const PAGES: usize = 510;

/// The page numbers of a file, in the order of its maps.
pub type Pages = ArrayVec<u16, PAGES>;

/// Puts the page numbers of a map block behind the others.
pub fn read_numbers(block: &[u8; BLOCK], count: usize, into: &mut Pages)
    requires map { count ≤ 255 }
    requires room { array_vec_len into.old + count ≤ PAGES }
    ensures numbers { into.new.items ≡ into.old.items ++ numbers_in block.now count }
{
    for i in 0..count {
        into.push(short_at(block, 2 + 2 * i));
    }
}

/// Checks the pages of the file in a slot: each lies behind the blocks of the catalogue, which are those below `first`, and on
/// the drive, and is used only here.
pub fn check_pages(
    used: &mut Vec<u16>,
    slot: u8,
    first: u16,
    count: u32,
    pages: &[u16],
) -> Result<(), MountFault>
    ensures finds { Finds result (first_broken used.old.items (page_rules first count slot pages.now)) (λ _. used.new.items ≡ used.old.items ++ pages.now) }
    ensures range { OnOk result (list_all (is_data first count) pages.now ≡ true) }
    ensures alone { failed result ≡ false }
{
    for page in pages {
        if !is_data(first, count, *page) {
            return Err(MountFault::Page(slot, *page));
        }
        if used.contains(page) {
            return Err(MountFault::Shared(*page));
        }
        if used.push(*page).is_err() {
            return Err(MountFault::NoMemory);
        }
    }
    Ok(())
}
