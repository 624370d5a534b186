//! Bytes that contracts see as a list.

ghost use Rattle.std.specs.Prelude.{◌≡◌, [], ◌∷◌, ◌++◌, length, ◌==◌, IfOk, OnOk, OnErr, slice_get, option_copied};
ghost use Rattle.std.specs.Str.{bytes_eq};
ghost use Rattle.std.specs.Cmp.{partial_equiv_from_equiv};
ghost use Rattle.std.specs.Cmp.Lexicographic.{nat_list_eq_equiv};

use std::alloc::{AllocError, Global};
use std::marker::Model;

/// A list of bytes: the spelling of a name, or the characters of a string.
#[derive(Debug, Drop)]
pub struct Text {
    bytes: Vec<u8>,
}

impl Model for Text {
    ghost use Rattle.std.specs.Prelude.{List, ℕ};

    ghost Value = { List ℕ };

    ghost view = { λ a. a.bytes.items };
}

impl PartialEq for Text {
    ghost eq = { bytes_eq };

    ghost laws = { partial_equiv_from_equiv nat_list_eq_equiv };

    fn eq(&self, other: &Text) -> bool {
        self.bytes.as_slice() == other.bytes.as_slice()
    }
}

impl Eq for Text {
    ghost laws = { nat_list_eq_equiv };
}

impl Text {
    /// The empty list. It takes no memory.
    pub fn new(alloc: Global) -> Self
        ensures empty { result ≡ [] }
    {
        Text {
            bytes: Vec::new(alloc),
        }
    }

    /// A copy of these bytes.
    pub fn from_slice(alloc: Global, bytes: &[u8]) -> Result<Self, AllocError>
        ensures copied { IfOk result (λ text. text ≡ bytes.now) }
    {
        Ok(Text {
            bytes: Vec::from_slice(alloc, bytes)?,
        })
    }

    /// The bytes of a `Vec`, without taking memory.
    pub fn from_vec(bytes: Vec<u8>) -> Self
        ensures same { result ≡ bytes.items }
    {
        Text { bytes }
    }

    /// The bytes as a `Vec`, without taking memory.
    pub fn into_vec(self) -> Vec<u8>
        ensures same { result.items ≡ self }
    {
        self.bytes
    }

    /// Adds a byte at the end. After a refusal the list is as before.
    pub fn push(&mut self, _alloc: Global, byte: u8) -> Result<(), AllocError>
        ensures ok { OnOk result (self.new ≡ self.old ++ byte ∷ []) }
        ensures err { OnErr result (self.new ≡ self.old) }
    {
        self.bytes.push(byte)?;
        Ok(())
    }

    /// Removes all bytes, and keeps their room.
    pub fn clear(&mut self)
        ensures empty { self.new ≡ [] }
    {
        self.bytes.clear();
    }

    pub fn len(&self) -> usize
        ensures count { result ≡ length self.now }
    {
        self.bytes.len()
    }

    pub fn is_empty(&self) -> bool
        ensures none { result ≡ (length self.now == 0) }
    {
        self.bytes.is_empty()
    }

    /// The byte at index `i`, counted from 0.
    pub fn get(&self, i: usize) -> Option<&u8>
        ensures at { option_copied result ≡ slice_get self.now i }
    {
        self.bytes.get(i)
    }

    pub fn as_slice(&self) -> &[u8]
        ensures all { result.now ≡ self.now }
    {
        &self.bytes
    }
}
