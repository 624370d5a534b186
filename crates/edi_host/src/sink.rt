//! A sink of bytes.

ghost use Rattle.std.specs.Prelude.{◌≡◌, ◌++◌, ◌≤◌, ℕ, List, length, take, Option};
ghost use Rattle.edi_told.specs.Faults.{CountRose};
ghost use Rattle.edi_told.specs.Told.{WhereTold};

/// How a put ended.
#[derive(Clone, Copy, Debug, PartialEq, Eq)]
pub enum PutEnd {
    /// All bytes were taken.
    Ok,
    /// The sink has failed.
    Failed,
}

/// What a put answers.
#[derive(Clone, Copy, Debug, PartialEq, Eq)]
pub struct Put {
    /// How many bytes were taken from the front of the piece.
    pub taken: usize,
    /// How the put ended.
    pub end: PutEnd,
}

/// Takes bytes in pieces.
pub trait Sink {
    /// The bytes taken so far, where they are told.
    ghost taken: { Self → Option (List ℕ) };

    /// How often a call has failed. The count stands still at `u64::MAX`.
    ghost faults: { Self → ℕ };

    /// Takes the first bytes of the piece, as many as the answer says. `Ok` means that all were taken.
    fn put(&mut self, piece: &[u8]) -> Put
        ensures within { result.taken ≤ length piece.now }
        ensures whole { result.end ≡ PutEnd.Ok → result.taken ≡ length piece.now }
        ensures appends { WhereTold (taken self.old) (taken self.new) (λ old new. new ≡ old ++ take result.taken piece.now) }
        ensures later { faults self.old ≤ faults self.new }
        ensures cause { result.end ≡ PutEnd.Failed → CountRose (faults self.old) (faults self.new) };
}
