//! A file that is kept in memory.

ghost use Rattle.std.specs.Prelude.{◌≡◌, ◌≤◌, length, false};
ghost use Rattle.edi_calls.specs.State.{most_bytes};
ghost use Rattle.edi_calls.specs.Calls.{text_file};

use edi_calls::FileKind;
use std::marker::Model;

/// A file that is kept in memory. It has at most 261,120 bytes.
#[derive(Debug, Drop)]
pub struct StoredFile {
    title: Vec<u8>,
    kind: FileKind,
    protected: bool,
    bytes: Vec<u8>,
}

impl Model for StoredFile {
    ghost use Rattle.std.specs.Prelude.{◌≤◌, length};
    ghost use Rattle.edi_calls.specs.State.{File, most_bytes};

    ghost Value = { File };

    ghost view = { λ f. record { title = f.title.items; kind = f.kind; protected = f.protected; bytes = f.bytes.items } };

    ghost invariant = { λ f. length f.bytes.items ≤ most_bytes };
}

impl StoredFile {
    /// A file of these parts.
    pub(crate) fn new(title: Vec<u8>, kind: FileKind, protected: bool, bytes: Vec<u8>) -> StoredFile
        requires { length bytes.items ≤ most_bytes }
        ensures { result ≡ record { title = title.items; kind = kind; protected = protected; bytes = bytes.items } }
    {
        StoredFile {
            title,
            kind,
            protected,
            bytes,
        }
    }

    /// The title, without blanks.
    pub fn title(&self) -> &[u8]
        ensures { result.now ≡ self.now.title }
    {
        &self.title
    }

    /// Whether it is a text or code.
    pub fn kind(&self) -> FileKind
        ensures { result ≡ self.now.kind }
    {
        self.kind
    }

    /// Whether it is protected: a protected file is neither replaced nor removed.
    pub fn is_protected(&self) -> bool
        ensures { result ≡ self.now.protected }
    {
        self.protected
    }

    /// The bytes, at most 261,120.
    pub fn bytes(&self) -> &[u8]
        ensures bytes { result.now ≡ self.now.bytes }
        ensures limit { length self.now.bytes ≤ most_bytes }
    {
        &self.bytes
    }
}
