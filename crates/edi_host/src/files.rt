//! Files by their names.

ghost use Rattle.std.specs.Prelude.{◌≡◌, ◌≤◌, ℕ, Option, vec_len};
ghost use Rattle.std.specs.FinMap as map;
ghost use Rattle.edi_told.specs.Faults.{CountRose};
ghost use Rattle.edi_told.specs.Told.{WhereTold};
ghost use Rattle.edi_host.specs.Files.{FetchGives, FetchEmpties, KeepLeaves};
ghost use Rattle.edi_host.specs.Contents.{Contents};

use std::alloc::Global;

/// How a fetch ended.
#[derive(Clone, Copy, Debug, PartialEq, Eq)]
pub enum FetchEnd {
    /// The bytes are there.
    Ok,
    /// No file has the name.
    Absent,
    /// The files have failed.
    Failed,
    /// There was no memory for the bytes.
    NoMemory,
}

/// How a keep ended.
#[derive(Clone, Copy, Debug, PartialEq, Eq)]
pub enum KeepEnd {
    /// The file has the bytes.
    Ok,
    /// The files have failed.
    Failed,
    /// There was no memory for the bytes.
    NoMemory,
}

/// A finite map from names to bytes.
pub trait Files {
    /// The bytes of each file by its name, where they are told.
    ghost contents: { Self → Option Contents };

    /// How often a call has failed. The count stands still at `u64::MAX`.
    ghost faults: { Self → ℕ };

    /// Puts the first `limit` bytes of the file, or all where there are fewer, in place of what `into` has.
    /// `Absent` comes exactly where no file has the name. On any answer but `Ok` `into` is empty.
    fn fetch(&mut self, alloc: Global, name: &str, limit: usize, into: &mut Vec<u8>) -> FetchEnd
        ensures unchanged { WhereTold (contents self.old) (contents self.new) (λ old new. new ≡ old) }
        ensures gives { WhereTold (contents self.old) (contents self.new) (λ old new. FetchGives result (map.get old name.now) limit into.new.items) }
        ensures empties { FetchEmpties result into.new.items }
        ensures bounded { vec_len into.new ≤ limit }
        ensures later { faults self.old ≤ faults self.new }
        ensures cause { result ≡ FetchEnd.Failed → CountRose (faults self.old) (faults self.new) };

    /// Makes these the bytes of the file. After `NoMemory` nothing has changed; after `Failed` nothing is
    /// known of this file, and every other is as it was.
    fn keep(&mut self, alloc: Global, name: &str, bytes: &[u8]) -> KeepEnd
        ensures leaves { WhereTold (contents self.old) (contents self.new) (KeepLeaves result name.now bytes.now) }
        ensures later { faults self.old ≤ faults self.new }
        ensures cause { result ≡ KeepEnd.Failed → CountRose (faults self.old) (faults self.new) };
}
