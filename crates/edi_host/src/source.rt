//! A source of bytes.

ghost use Rattle.std.specs.Prelude.{◌≡◌, ◌≤◌, ℕ, List, Option};
ghost use Rattle.edi_told.specs.Faults.{CountRose};
ghost use Rattle.edi_told.specs.Told.{WhereTold};
ghost use Rattle.edi_host.specs.Streams.{Takes};

/// What a source gives.
#[derive(Clone, Copy, Debug, PartialEq, Eq)]
pub enum Next {
    /// The first of the bytes that were left.
    Byte(u8),
    /// No byte was left.
    End,
    /// The source has failed.
    Failed,
}

/// Bytes that come one at a time.
pub trait Source {
    /// The bytes that are left, where they are told.
    ghost left: { Self → Option (List ℕ) };

    /// How often a call has failed. The count stands still at `u64::MAX`.
    ghost faults: { Self → ℕ };

    /// Takes the first byte that is left. `End` comes exactly where none is left. After `Failed` the bytes
    /// left are as they were.
    fn next(&mut self) -> Next
        ensures takes { WhereTold (left self.old) (left self.new) (Takes result) }
        ensures later { faults self.old ≤ faults self.new }
        ensures cause { result ≡ Next.Failed → CountRose (faults self.old) (faults self.new) };
}
