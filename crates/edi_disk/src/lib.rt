//! A drive as a list of blocks, with a cache of 16 of them: a block that was put is written to the drive when
//! it is driven out of the cache, or at a flush.
#![tactic(auto)]

mod cache;
mod disk;
mod laws;

pub use disk::{Disk, DiskEnd};
pub use laws::between_flushes;
