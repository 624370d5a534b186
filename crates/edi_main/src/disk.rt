//! The commands on the disk: `newdisk BLOCKS`, `newdisk BLOCKS --from FILE`, `put FILE TITLE`, `get TITLE FILE`.

mod new_disks;
mod puts;
mod reads;
mod storing;
mod titles;

pub use new_disks::{new_disk, new_disk_from};
pub use puts::put;
pub use reads::get;
