//! What is wrong with an image.

use thiserror::Error;

/// The first rule of an image that is broken, or why it was not mounted.
#[derive(Clone, Copy, Debug, PartialEq, Eq, Drop, Error)]
pub enum MountFault {
    /// The drive has blocks, but fewer than 64.
    #[error("the image is too short")]
    Short,
    /// The drive has more than 4096 blocks, or block 0 is not that of an image of this size.
    #[error("block 0 is not that of an image")]
    Header,
    /// The entry of a slot breaks a rule, its title stands in an earlier slot, or one of its map blocks tells a wrong
    /// number of pages.
    #[error("the entry of slot {0} breaks a rule")]
    Entry(u8),
    /// A page of the file in a slot lies in the catalogue or beyond the drive: the slot, and the number of the page's block.
    #[error("a page of slot {0} cannot be block {1}")]
    Page(u8, u16),
    /// A block is used twice.
    #[error("block {0} is used twice")]
    Shared(u16),
    /// The drive has failed.
    #[error("the drive has failed")]
    Fault,
    /// There is not enough memory.
    #[error("out of memory")]
    NoMemory,
}
