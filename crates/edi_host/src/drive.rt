//! A drive of blocks.

ghost use Rattle.std.specs.Prelude.{◌≡◌, ◌≤◌, ◌<◌, ℕ, true, List, length, Option, IfSome};
ghost use Rattle.std.specs.List.{list_all};
ghost use Rattle.edi_told.specs.Faults.{CountRose};
ghost use Rattle.edi_told.specs.Told.{WhereTold};
ghost use Rattle.edi_host.specs.Blocks.{is_block, ReadLeaves, WriteLeaves, ResizeLeaves, CountLeaves};

use std::alloc::Global;

/// How a read or a write ended.
#[derive(Clone, Copy, Debug, PartialEq, Eq)]
pub enum DriveEnd {
    /// The block was read or written.
    Ok,
    /// The drive has failed.
    Failed,
}

/// How a resize ended.
#[derive(Clone, Copy, Debug, PartialEq, Eq)]
pub enum ResizeEnd {
    /// The drive has the number of blocks.
    Ok,
    /// The drive has failed.
    Failed,
    /// There was no memory for the blocks.
    NoMemory,
}

/// A list of blocks of 512 bytes, numbered from 0.
pub trait Drive {
    /// The blocks, where they are told.
    ghost contents: { Self → Option (List (List ℕ)) };

    /// The number of blocks, which every drive tells.
    ghost count: { Self → ℕ };

    /// How often a call has failed. The count stands still at `u64::MAX`.
    ghost faults: { Self → ℕ };

    /// The number of blocks.
    fn blocks(&self) -> u32
        ensures count { result ≡ count self.now };

    /// Reads block `n`. No block changes. After `Failed` nothing is known of `into`.
    fn read(&mut self, n: u32, into: &mut [u8; 512]) -> DriveEnd
        requires { n < count self.old }
        ensures leaves { WhereTold (contents self.old) (contents self.new) (ReadLeaves result n into.new) }
        ensures count { count self.new ≡ count self.old }
        ensures later { faults self.old ≤ faults self.new }
        ensures cause { result ≡ DriveEnd.Failed → CountRose (faults self.old) (faults self.new) };

    /// Writes block `n`. After `Failed` that block is as it was or as it was to be, and every other as it was.
    fn write(&mut self, n: u32, from: &[u8; 512]) -> DriveEnd
        requires { n < count self.old }
        ensures leaves { WhereTold (contents self.old) (contents self.new) (WriteLeaves result n from.now) }
        ensures count { count self.new ≡ count self.old }
        ensures later { faults self.old ≤ faults self.new }
        ensures cause { result ≡ DriveEnd.Failed → CountRose (faults self.old) (faults self.new) };

    /// Cuts the drive to `n` blocks, or adds blocks of zeros up to `n`. After `NoMemory` nothing has changed;
    /// after `Failed` nothing is known of the blocks and of their number.
    fn resize(&mut self, alloc: Global, n: u32) -> ResizeEnd
        ensures leaves { WhereTold (contents self.old) (contents self.new) (ResizeLeaves result n) }
        ensures count { CountLeaves result n (count self.old) (count self.new) }
        ensures later { faults self.old ≤ faults self.new }
        ensures cause { result ≡ ResizeEnd.Failed → CountRose (faults self.old) (faults self.new) };

    /// Where the blocks are told, the number is theirs.
    ghost counted: { (drive : Self) → IfSome (contents drive) (λ blocks. length blocks ≡ count drive) };

    /// Where the blocks are told, each of them has 512 bytes.
    ghost sized: { (drive : Self) → IfSome (contents drive) (λ blocks. list_all is_block blocks ≡ true) };
}
