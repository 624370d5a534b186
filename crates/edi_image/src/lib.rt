//! The image of a disk in bytes: its entries and maps, the rules that its blocks keep, and what is kept of its files. No drive
//! is called here.
#![tactic(auto)]

mod blocks;
mod bytes;
mod entries;
mod faults;
mod fields;
pub mod laws;
pub mod migrate;
mod pages;
mod stored;
mod title;

pub use blocks::{BLOCK, VERSION, header_block, new_block};
pub use bytes::{entry_bytes, slot_bytes};
pub use entries::{
    ENTRY, FIRST, FileRecord, MAP_PAGES, MOST_BYTES, Said, entry_says, kind_of, pages_of,
};
pub use faults::MountFault;
pub use fields::{are_zeros, is_data, long_at, short_at};
pub use pages::{PAGES, Pages, check_pages, read_numbers};
pub use stored::{StoredFile, blocks_taken, free_slots, has_title, is_titled, put_file};
pub use title::{TITLE, Title};
