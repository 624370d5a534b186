//! What the catalogue tells of a file.

use edi_calls::FileKind;
use edi_image::Title;

/// What the catalogue tells of a file.
#[derive(Clone, Copy, Debug, PartialEq, Eq)]
pub struct Entry {
    /// Its title. No two files have one.
    pub title: Title,
    /// Whether it is a text or a code.
    pub kind: FileKind,
    /// Whether it is protected: a protected file is neither replaced, renamed nor deleted.
    pub protected: bool,
    /// The number of its bytes, at most 261,120.
    pub length: u32,
}
