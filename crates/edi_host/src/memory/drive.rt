//! A drive in memory of which chosen calls fail.

ghost use Rattle.std.specs.Prelude.{◌≡◌, ◌<◌, ◌%◌, IfOk, length, map};
ghost use Rattle.edi_host.specs.Blocks.{block_of, bytes_of, drive_fault, resize_fault, written, ReadLeaves, ResizeLeaves, ResizesOrNot, WriteLeaves};
ghost use Rattle.edi_host.specs.BytesAsBlocks.{blocks_of};
ghost use Rattle.edi_host.specs.Plan.{planned, strikes, after_call};

use crate::drive::{Drive, DriveEnd, ResizeEnd};
use crate::plan::FaultPlan;
use crate::steady::drive::SteadyDrive;
use std::alloc::{AllocError, Global};
use std::marker::Model;

/// A drive in memory of which chosen calls fail.
#[derive(Drop)]
pub struct MemoryDrive {
    drive: SteadyDrive,
    plan: FaultPlan,
    lands: bool,
}

impl Model for MemoryDrive {
    ghost use Rattle.edi_host.specs.Forms.{FailingDrive};

    ghost Value = { FailingDrive };

    ghost view = { λ d. record { blocks = d.drive; plan = d.plan; lands = d.lands } };
}

impl MemoryDrive {
    /// A drive of these bytes, a multiple of 512 of them. The calls of `read`, `write` and `resize` whose
    /// numbers, counted together from 1, are in `failing` fail. `lands` says whether a write that fails takes
    /// effect. A drive of 2^32 blocks or more is refused, as want of memory.
    pub fn new(
        alloc: Global,
        bytes: &[u8],
        failing: &[u64],
        lands: bool,
    ) -> Result<MemoryDrive, AllocError>
        requires { length bytes.now % 512 ≡ 0 }
        ensures made { IfOk result (λ drive. drive ≡ record { blocks = blocks_of bytes.now; plan = planned failing.now; lands = lands }) }
    {
        Ok(MemoryDrive {
            drive: SteadyDrive::new(alloc, bytes)?,
            plan: FaultPlan::new(alloc, failing)?,
            lands,
        })
    }

    /// The blocks one after another, as they are told.
    pub fn bytes(&self) -> &[u8]
        ensures blocks { result.now ≡ bytes_of self.now.blocks }
        ensures tells { map block_of self.now.blocks ≡ self.now.blocks }
    {
        self.drive.bytes()
    }
}

impl Drive for MemoryDrive {
    ghost use Rattle.std.specs.Prelude.{Some, length, map};
    ghost use Rattle.std.proofs.lemmas.List.{length-map};
    ghost use Rattle.edi_host.specs.Blocks.{block_of};
    ghost use Rattle.edi_host.specs.Sized.{all_are_blocks};

    ghost contents = { λ s. Some (map block_of s.blocks) };

    ghost count = { λ s. length s.blocks };

    ghost faults = { λ s. s.plan.faults };

    ghost counted = { λ s. length-map s.blocks block_of };

    ghost sized = { λ s. all_are_blocks s.blocks };

    fn blocks(&self) -> u32 {
        self.drive.blocks()
    }

    fn read(&mut self, n: u32, into: &mut [u8; 512]) -> DriveEnd
        requires { n < length self.old.blocks }
        ensures fails { drive_fault result ≡ strikes self.old.plan }
        ensures leaves { ReadLeaves result n into.new self.old.blocks self.new.blocks }
        ensures tells { ReadLeaves result n into.new (map block_of self.old.blocks) (map block_of self.new.blocks) }
        ensures lands { self.new.lands ≡ self.old.lands }
        ensures plan { self.new.plan ≡ after_call (strikes self.old.plan) self.old.plan }
    {
        if self.plan.call() {
            return DriveEnd::Failed;
        }
        self.drive.read(n, into)
    }

    fn write(&mut self, n: u32, from: &[u8; 512]) -> DriveEnd
        requires { n < length self.old.blocks }
        ensures fails { drive_fault result ≡ strikes self.old.plan }
        ensures leaves { self.new.blocks ≡ written (strikes self.old.plan) self.old.lands self.old.blocks n from.now }
        ensures tells { WriteLeaves result n from.now (map block_of self.old.blocks) (map block_of self.new.blocks) }
        ensures lands { self.new.lands ≡ self.old.lands }
        ensures plan { self.new.plan ≡ after_call (strikes self.old.plan) self.old.plan }
    {
        let fault = self.plan.call();
        if fault && !self.lands {
            return DriveEnd::Failed;
        }
        let end = self.drive.write(n, from);
        if fault { DriveEnd::Failed } else { end }
    }

    fn resize(&mut self, alloc: Global, n: u32) -> ResizeEnd
        ensures fails { resize_fault result ≡ strikes self.old.plan }
        ensures leaves { ResizesOrNot result n self.old.blocks self.new.blocks }
        ensures tells { ResizeLeaves result n (map block_of self.old.blocks) (map block_of self.new.blocks) }
        ensures lands { self.new.lands ≡ self.old.lands }
        ensures plan { self.new.plan ≡ after_call (strikes self.old.plan) self.old.plan }
    {
        if self.plan.call() {
            return ResizeEnd::Failed;
        }
        self.drive.resize(alloc, n)
    }
}
