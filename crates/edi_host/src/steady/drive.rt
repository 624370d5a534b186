//! A drive in memory that never fails.

ghost use Rattle.std.specs.Prelude.{◌≡◌, ◌<◌, ◌%◌, false, IfOk, length, map, slice_set};
ghost use Rattle.edi_host.specs.Blocks.{block_of, bytes_of, resize_fault, ReadLeaves, ResizeLeaves, ResizesOrNot, WriteLeaves};
ghost use Rattle.edi_host.specs.BytesAsBlocks.{blocks_of};

use crate::drive::{Drive, DriveEnd, ResizeEnd};
use std::alloc::{AllocError, Global};
use std::marker::Model;

/// A drive in memory that never fails, seen as its blocks.
#[derive(Drop)]
pub struct SteadyDrive {
    blocks: Vec<[u8; 512]>,
}

impl Model for SteadyDrive {
    ghost use Rattle.std.specs.Prelude.{ℕ, ◌≡◌, ◌<◌, ◌^◌, true, List, length};
    ghost use Rattle.std.specs.List.{list_all};
    ghost use Rattle.edi_host.specs.Blocks.{is_block};

    ghost Value = { List (List ℕ) };

    ghost view = { λ d. d.blocks.items };

    ghost invariant = { λ d. (length d.blocks.items < 2 ^ 32) × (list_all is_block d.blocks.items ≡ true) };
}

impl SteadyDrive {
    /// A drive of these bytes, a multiple of 512 of them. A drive of 2^32 blocks or more is refused, as want
    /// of memory.
    pub fn new(alloc: Global, bytes: &[u8]) -> Result<SteadyDrive, AllocError>
        requires { length bytes.now % 512 ≡ 0 }
        ensures made { IfOk result (λ drive. drive ≡ blocks_of bytes.now) }
    {
        let (blocks, _) = bytes.as_chunks::<512>();
        if blocks.len() > u32::MAX as usize {
            return Err(AllocError);
        }
        Ok(SteadyDrive {
            blocks: Vec::from_slice(alloc, blocks)?,
        })
    }

    /// The blocks one after another, as they are told.
    pub fn bytes(&self) -> &[u8]
        ensures blocks { result.now ≡ bytes_of self.now }
        ensures tells { map block_of self.now ≡ self.now }
    {
        self.blocks.as_slice().as_flattened()
    }
}

impl Drive for SteadyDrive {
    ghost use Rattle.std.specs.Prelude.{Some, length, map};
    ghost use Rattle.std.proofs.lemmas.List.{length-map};
    ghost use Rattle.edi_host.specs.Blocks.{block_of};
    ghost use Rattle.edi_host.specs.Sized.{all_are_blocks};

    ghost contents = { λ s. Some (map block_of s) };

    ghost count = { λ s. length s };

    ghost faults = { λ s. 0 };

    ghost counted = { λ s. length-map s block_of };

    ghost sized = { all_are_blocks };

    fn blocks(&self) -> u32 {
        self.blocks.len() as u32
    }

    fn read(&mut self, n: u32, into: &mut [u8; 512]) -> DriveEnd
        requires { n < length self.old }
        ensures ok { result ≡ DriveEnd.Ok }
        ensures leaves { ReadLeaves result n into.new self.old self.new }
        ensures tells { ReadLeaves result n into.new (map block_of self.old) (map block_of self.new) }
    {
        into.copy_from_slice(&self.blocks[n as usize]);
        DriveEnd::Ok
    }

    fn write(&mut self, n: u32, from: &[u8; 512]) -> DriveEnd
        requires { n < length self.old }
        ensures ok { result ≡ DriveEnd.Ok }
        ensures leaves { self.new ≡ slice_set self.old n from.now }
        ensures tells { WriteLeaves result n from.now (map block_of self.old) (map block_of self.new) }
    {
        self.blocks[n as usize] = *from;
        DriveEnd::Ok
    }

    fn resize(&mut self, alloc: Global, n: u32) -> ResizeEnd
        ensures works { resize_fault result ≡ false }
        ensures leaves { ResizesOrNot result n self.old self.new }
        ensures tells { ResizeLeaves result n (map block_of self.old) (map block_of self.new) }
    {
        let _ = alloc;
        match self.blocks.resize(n as usize, [0; 512]) {
            Ok(()) => ResizeEnd::Ok,
            Err(_) => ResizeEnd::NoMemory,
        }
    }
}
