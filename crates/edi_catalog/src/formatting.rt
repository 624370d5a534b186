//! Making an image with no files.

ghost use Rattle.std.specs.Prelude.{◌≡◌, ◌≤◌, ◌<◌, ◌^◌};
ghost use Rattle.edi_told.specs.Faults.{CountRose};
ghost use Rattle.edi_told.specs.Told.{WhereTold};
ghost use Rattle.edi_catalog.specs.Ends.{CatalogueLeaves, FormatLeaves, FormatCounts};

use edi_host::{Drive, DriveEnd, ResizeEnd};
use edi_image::new_block;
use std::alloc::Global;

/// How a format ended.
#[derive(Clone, Copy, Debug, PartialEq, Eq, Drop)]
pub enum FormatEnd {
    /// The drive is an image with no files.
    Ok,
    /// The drive has failed; nothing is known of its blocks.
    Fault,
    /// There was no memory for the blocks; nothing has changed.
    NoMemory,
}

/// The number of blocks of the catalogue.
const CATALOGUE: u32 = 33;

/// Makes the drive an image of `blocks` blocks, 64 to 4096, with no files. What it had is lost, but for the bytes of the
/// blocks behind the catalogue.
pub fn format<D: Drive>(alloc: Global, drive: &mut D, blocks: u32) -> FormatEnd
    requires least { 64 ≤ blocks }
    requires most { blocks ≤ 4096 }
    ensures leaves { WhereTold (D.contents drive.old) (D.contents drive.new) (FormatLeaves result blocks) }
    ensures count { FormatCounts result blocks (D.count drive.old) (D.count drive.new) }
    ensures later { D.faults drive.old ≤ D.faults drive.new }
    ensures cause { result ≡ FormatEnd.Fault → CountRose (D.faults drive.old) (D.faults drive.new) }
{
    match drive.resize(alloc, blocks) {
        ResizeEnd::Ok => match write_catalogue(drive, blocks as u16) {
            DriveEnd::Ok => FormatEnd::Ok,
            DriveEnd::Failed => FormatEnd::Fault,
        },
        ResizeEnd::Failed => FormatEnd::Fault,
        ResizeEnd::NoMemory => FormatEnd::NoMemory,
    }
}

// Writes the catalogue of an image of `count` blocks that has no files.
fn write_catalogue<D: Drive>(drive: &mut D, count: u16) -> DriveEnd
    requires { CATALOGUE ≤ D.count drive.old }
    ensures leaves { WhereTold (D.contents drive.old) (D.contents drive.new) (CatalogueLeaves result count) }
    ensures count { D.count drive.new ≡ D.count drive.old }
    ensures later { D.faults drive.old ≤ D.faults drive.new }
    ensures cause { result ≡ DriveEnd.Failed → CountRose (D.faults drive.old) (D.faults drive.new) }
{
    for n in 0..CATALOGUE {
        match drive.write(n, &new_block(count, n)) {
            DriveEnd::Ok => {}
            DriveEnd::Failed => return DriveEnd::Failed,
        }
    }
    DriveEnd::Ok
}
