//! What is wrong with a code.

use thiserror::Error;

/// The first rule of a code, or of the file that it stands in, that is broken.
///
/// Addresses `at` of [`Short`](CodeFault::Short), [`Over`](CodeFault::Over) and [`Header`](CodeFault::Header) count the bytes
/// of the file from 0, those of the other two the words of the code.
#[derive(Clone, Copy, Debug, PartialEq, Eq, Error)]
pub enum CodeFault {
    /// The file ends too early; `at` is its number of bytes.
    #[error("the file ends at byte {at}")]
    Short { at: u32 },
    /// The file goes on behind its last word; `at` is the first byte too many.
    #[error("the file goes on at byte {at}")]
    Over { at: u32 },
    /// A field of the header breaks its rule: its first byte, and what stands there.
    #[error("the header has {found} at byte {at}")]
    Header { at: u32, found: u8 },
    /// No instruction is read at an address where one must start, and the word that stands there.
    #[error("no instruction at {at}, where {found} stands")]
    Operation { at: u32, found: u16 },
    /// An instruction leads where it must not, or the program begins at what cannot be its entry.
    #[error("the instruction at {at} leads to {target}")]
    Jump { at: u32, target: u32 },
    /// There is not enough memory.
    #[error("out of memory")]
    NoMemory,
}
