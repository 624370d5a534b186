//! Reading a text of the catalogue, page by page.

ghost use Rattle.std.specs.Prelude.{◌≡◌, ◌/◌, ◌<◌, length, Some, IfOk, OnOk, IsSome, is_some, nat_lt};
ghost use Rattle.std.specs.Option.{option_map};
ghost use Rattle.edi_told.specs.Told.{WhereTold};
ghost use Rattle.edi_disk.specs.Shown.{drive_of};
ghost use Rattle.edi_calls.specs.State.{title_of};
ghost use Rattle.edi_catalog.specs.Files.{entry_of, file_titled};
ghost use Rattle.edi_catalog.specs.Mounted.{IsMounted, disk_of, files_of};
ghost use Rattle.edi_system.specs.State.{IsReading};
ghost use Rattle.edi_system.specs.Loading.{IsOn, Loads, LoadsAt};
ghost use Rattle.edi_system.specs.Reading.{byte_in, forgotten, is_err, is_kept, not_titled, text_of, text_spelled, CatalogRests, GivesByte, OnlyReads};

use crate::streams::character;
use crate::system::PAGE;
use edi_calls::FileKind;
use edi_catalog::{CatEnd, Catalog, Title};
use edi_host::Drive;

/// The text that is being read.
#[derive(Drop)]
pub(crate) struct Reading {
    /// Its title.
    pub title: Title,
    /// The number of its bytes that were read, at most its length.
    pub position: u32,
    /// The number of its bytes.
    pub length: u32,
    /// The number of the page that is kept, if one is.
    pub kept: Option<u32>,
}

/// The title that the words of a call spell, if they spell one.
pub(crate) fn title_of(words: &[u16]) -> Option<Title>
    requires { length words.now ≡ 12 }
    ensures { result ≡ title_of words.now }
{
    let mut characters = [0; 12];
    for (index, word) in words.iter().enumerate() {
        characters[index] = character(*word);
    }
    Title::new(&characters)
}

// Whether this page is kept.
fn is_kept(kept: Option<u32>, page: u32) -> bool
    ensures { result ≡ is_kept page kept }
{
    match kept {
        Some(other) => other == page,
        None => false,
    }
}

// The text with this title, at its start. A code is no text.
fn text_titled<D: Drive>(catalog: &Catalog<'_, '_, D>, title: Title) -> Option<Reading>
    ensures { result ≡ text_of title (option_map entry_of (file_titled title (files_of catalog.now))) }
{
    let Some(entry) = catalog.find(&title) else {
        return None;
    };
    match entry.kind {
        FileKind::Text => Some(Reading {
            title,
            position: 0,
            length: entry.length,
            kept: None,
        }),
        FileKind::Code => None,
    }
}

/// The text with the title that the words of a call spell, at its start.
pub(crate) fn text_spelled<D: Drive>(catalog: &Catalog<'_, '_, D>, words: &[u16]) -> Option<Reading>
    requires { length words.now ≡ 12 }
    ensures { result ≡ text_spelled words.now (files_of catalog.now) }
{
    match title_of(words) {
        Some(title) => text_titled(catalog, title),
        None => None,
    }
}

/// Forgets the page of a text that is kept, since its file may have other blocks from now on.
pub(crate) fn forget_page(found: &mut Option<Reading>)
    ensures { found.new ≡ option_map forgotten found.old }
{
    if let Some(reading) = found {
        reading.kept = None;
    }
}

/// Drops a text where it has this title, and else forgets its page.
pub(crate) fn drop_titled(found: &mut Option<Reading>, title: &Title)
    ensures { found.new ≡ not_titled title.now found.old }
{
    if let Some(reading) = found {
        if reading.title == *title {
            *found = None;
        } else {
            reading.kept = None;
        }
    }
}

// Reads the page with the position of a text, unless it is kept. The text is not at its end.
fn load<D: Drive>(
    catalog: &mut Catalog<'_, '_, D>,
    reading: &mut Reading,
    page: &mut [u8; PAGE],
) -> Result<(), CatEnd>
    requires mounted { IsMounted D.contents D.count catalog.old }
    requires reading { IsReading D.contents catalog.old page.old reading.old }
    requires more { reading.old.position < reading.old.length }
    ensures mounted { OnOk result (IsMounted D.contents D.count catalog.new) }
    ensures reading { OnOk result (IsReading D.contents catalog.new page.new reading.new) }
    ensures loads { OnOk result (Loads reading.old reading.new.kept page.old page.new catalog.old catalog.new) }
    ensures same { reading.new ≡ record reading.old { kept = reading.new.kept } }
    ensures reads { OnlyReads D.faults (is_err result) catalog.old catalog.new }
    ensures rests { CatalogRests D.contents D.count catalog.old catalog.new }
{
    let wanted = reading.position / (PAGE as u32);
    if is_kept(reading.kept, wanted) {
        return Ok(());
    }
    match catalog.read_page(&reading.title, wanted, page) {
        Ok(()) => {
            reading.kept = Some(wanted);
            Ok(())
        }
        Err(why) => Err(why),
    }
}

/// The byte of a text at its position, or nothing at its end. A page stays while the text is read on in it.
pub(crate) fn next_byte<D: Drive>(
    catalog: &mut Catalog<'_, '_, D>,
    reading: &mut Reading,
    page: &mut [u8; PAGE],
) -> Result<Option<u8>, CatEnd>
    requires mounted { IsMounted D.contents D.count catalog.old }
    requires reading { IsReading D.contents catalog.old page.old reading.old }
    ensures mounted { OnOk result (IsMounted D.contents D.count catalog.new) }
    ensures reading { OnOk result (IsReading D.contents catalog.new page.new reading.new) }
    ensures inside { IfOk result (λ byte. IsSome byte → reading.new.position < reading.new.length) }
    ensures there { IfOk result (λ byte. is_some byte ≡ nat_lt reading.old.position reading.old.length) }
    ensures same { reading.new ≡ record reading.old { kept = reading.new.kept } }
    ensures reads { OnlyReads D.faults (is_err result) catalog.old catalog.new }
    ensures rests { CatalogRests D.contents D.count catalog.old catalog.new }
    ensures byte { WhereTold (D.contents (drive_of (disk_of catalog.old))) (D.contents (drive_of (disk_of catalog.new)))
        (λ old new. (new ≡ old) × GivesByte result (byte_in old reading.old.title reading.old.position)) }
    ensures loads { OnOk result (LoadsAt (nat_lt reading.old.position reading.old.length) reading.old reading.new.kept page.old page.new catalog.old
        catalog.new) }
    ensures on { IfOk result (IsOn page.new (Some reading.old)) }
{
    if reading.position >= reading.length {
        return Ok(None);
    }
    match load(catalog, reading, page) {
        Ok(()) => Ok(Some(page[reading.position as usize % PAGE])),
        Err(why) => Err(why),
    }
}
