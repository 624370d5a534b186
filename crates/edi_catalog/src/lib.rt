//! The files of a disk: making an image, checking and mounting one, and the calls that read, change and store files.
#![tactic(auto)]

mod catalog;
mod changes;
mod contents;
mod ends;
mod entry;
mod entry_blocks;
mod files;
mod formatting;
mod free;
mod laying;
mod maps;
mod mounting;
mod putting;
mod reading;
mod slots;
mod storing;
mod writing;

pub use catalog::Catalog;
pub use edi_calls::FileKind;
pub use edi_image::migrate::{MigrateEnd, migrate};
pub use edi_image::{MountFault, Title};
pub use ends::CatEnd;
pub use entry::Entry;
pub use formatting::{FormatEnd, format};
pub use mounting::{Checked, check, mount};
