//! Why a call of the catalogue was refused.

/// Why a call of the catalogue was refused.
#[derive(Clone, Copy, Debug, PartialEq, Eq, Drop)]
pub enum CatEnd {
    /// No file has the title.
    NoSuch,
    /// Another file, or the file itself, has the new title.
    Taken,
    /// The file is protected.
    Protected,
    /// The bytes are more than the 261,120 of the longest file: their number.
    TooLarge(u32),
    /// All 256 slots have a file.
    CatalogFull,
    /// The file would take more blocks than are free.
    Full {
        /// The blocks that it would take.
        wanted: u32,
        /// The blocks that are free.
        free: u32,
    },
    /// The drive has failed. No further call is made on this catalogue.
    Fault,
}
