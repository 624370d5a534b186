//! The disk.

ghost use Rattle.std.specs.Prelude.{◌≡◌, ℕ, ◌<◌, ◌≤◌, ◌+◌, [], Bool, true, List, IfSome, length, take, slice_get};
ghost use Rattle.std.specs.Option.{ForSome};
ghost use Rattle.edi_told.specs.Faults.{CountRose};
ghost use Rattle.edi_told.specs.Told.{WhereTold};
ghost use Rattle.edi_disk.specs.Use.{after_use, is_listed, first_of_full, driven_out};
ghost use Rattle.edi_disk.specs.Shown.{cached, Caches, IsClean, shown, numbers_cached, drive_of, reference_of, IsWorking, IsBacked, numbers_of};
ghost use Rattle.edi_disk.specs.Since.{Kept, PageGives, PutLeaves, ChangesOnly, AllOn, Writes};

use crate::cache::{Cache, SLOTS};
use edi_host::{Drive, DriveEnd};

/// How a call of the disk ended.
#[derive(Clone, Copy, Debug, PartialEq, Eq)]
pub enum DiskEnd {
    /// It was done.
    Ok,
    /// The drive has failed. No further call is made on this disk.
    Fault,
}

/// The blocks of a drive, with up to 16 of them cached in memory.
///
/// Contracts see the blocks that the disk shows, which are the drive's with the cached ones over them, the
/// numbers of the cached blocks in the order of their use, and the drive itself.
#[derive(Drop)]
pub struct Disk<'a, D: Drive> {
    drive: &'a mut D,
    cache: Cache,
}

// Writes the i-th cached block to the drive where it is not written yet.
fn write_one<D: Drive>(drive: &mut D, cache: &Cache, i: usize) -> DiskEnd
    requires { IsBacked D.contents D.count drive.old cache.now }
    ensures writes { Writes D.contents D.count D.faults cache.now drive.old drive.new }
    ensures only { WhereTold (D.contents drive.old) (D.contents drive.new) (ChangesOnly (slice_get (numbers_of cache.now) i)) }
    ensures more { result ≡ DiskEnd.Ok → AllOn D.contents drive.old (take i cache.now) → AllOn D.contents drive.new (take (i + 1) cache.now) }
    ensures cause { result ≡ DiskEnd.Fault → CountRose (D.faults drive.old) (D.faults drive.new) }
{
    let Some(slot) = cache.get(i) else {
        return DiskEnd::Ok;
    };
    if !slot.unwritten {
        return DiskEnd::Ok;
    }
    match drive.write(slot.number, &slot.bytes) {
        DriveEnd::Ok => DiskEnd::Ok,
        DriveEnd::Failed => DiskEnd::Fault,
    }
}

// Where a further block would drive out the first cached one, writes that one.
fn make_room<D: Drive>(drive: &mut D, cache: &Cache) -> DiskEnd
    requires { IsBacked D.contents D.count drive.old cache.now }
    ensures writes { Writes D.contents D.count D.faults cache.now drive.old drive.new }
    ensures only { WhereTold (D.contents drive.old) (D.contents drive.new) (ChangesOnly (first_of_full (numbers_of cache.now))) }
    ensures first { result ≡ DiskEnd.Ok → 16 ≤ length cache.now → AllOn D.contents drive.new (take 1 cache.now) }
    ensures idle { length cache.now < 16 → (result ≡ DiskEnd.Ok) × (drive.new ≡ drive.old) }
    ensures cause { result ≡ DiskEnd.Fault → CountRose (D.faults drive.old) (D.faults drive.new) }
{
    if cache.len() < SLOTS {
        DiskEnd::Ok
    } else {
        write_one(drive, cache, 0)
    }
}

// Writes each cached block that is not written yet.
fn write_all<D: Drive>(drive: &mut D, cache: &Cache) -> DiskEnd
    requires { IsBacked D.contents D.count drive.old cache.now }
    ensures writes { Writes D.contents D.count D.faults cache.now drive.old drive.new }
    ensures all { result ≡ DiskEnd.Ok → AllOn D.contents drive.new cache.now }
    ensures cause { result ≡ DiskEnd.Fault → CountRose (D.faults drive.old) (D.faults drive.new) }
{
    for i in 0..cache.len() {
        match write_one(drive, cache, i) {
            DiskEnd::Ok => {}
            DiskEnd::Fault => return DiskEnd::Fault,
        }
    }
    DiskEnd::Ok
}

impl<'a, D: Drive> Disk<'a, D> {
    /// The disk of this drive, with no block cached.
    pub fn attach(drive: &'a mut D) -> Disk<'a, D>
        ensures same_reference { reference_of result ≡ drive.entry.ghost_name }
        ensures same_drive { drive_of result ≡ drive.old }
        ensures works { IsWorking D.contents D.count result }
        ensures shows { shown D.contents result ≡ D.contents drive.old }
        // From here on each block is as it is now, or is one that is put.
        ensures begins { (was_put : ℕ → List ℕ → Bool) → ForSome (D.contents drive.old) (λ base. Kept D.contents base was_put result) }
        ensures holds_none { numbers_cached result ≡ [] }
        ensures clean { IsClean result }
    {
        Disk {
            drive,
            cache: Cache::new(),
        }
    }

    /// The number of blocks.
    pub fn blocks(&self) -> u32
        ensures count { result ≡ D.count (drive_of self.now) }
        ensures counts { IfSome (shown D.contents self.now) (λ blocks. length blocks ≡ result) }
    {
        self.drive.blocks()
    }

    /// The number of the i-th cached block, the one used longest ago first; `None` exactly where fewer than
    /// i + 1 are cached.
    pub fn held(&self, i: usize) -> Option<u32>
        ensures exact { result ≡ slice_get (numbers_cached self.now) i }
    {
        self.cache.get(i).map(|slot| slot.number)
    }

    /// Gives block `n`. One that is cached is given without the drive. After `Fault` nothing is known of `into`.
    pub fn page(&mut self, n: u32, into: &mut [u8; 512]) -> DiskEnd
        requires in_range { n < D.count (drive_of self.old) }
        requires works { IsWorking D.contents D.count self.old }
        ensures same_reference { reference_of self.new ≡ reference_of self.old }
        ensures works { result ≡ DiskEnd.Ok → IsWorking D.contents D.count self.new }
        // On Ok the disk shows what it showed, and `into` has its block n.
        ensures gives { WhereTold (shown D.contents self.old) (shown D.contents self.new) (PageGives result n into.new) }
        // Whatever the drive tells: one that is cached is given as it is cached, and on Ok `into` has it as it is cached from
        // then on. So are the others, but for the one that is driven out.
        ensures cached { IfSome (cached n self.old) (λ bytes. into.new ≡ bytes) }
        ensures caches { result ≡ DiskEnd.Ok → Caches n into.new self.old self.new }
        ensures clean { result ≡ DiskEnd.Ok → IsClean self.old → IsClean self.new }
        // Whatever the answer: each block that the drive has is as it was at the last flush that was Ok (or at
        // `attach`), or was put since.
        ensures since { (base : List (List ℕ)) (was_put : ℕ → List ℕ → Bool) → Kept D.contents base was_put self.old → Kept D.contents base was_put self.new }
        // No block changes on the drive but the one that is driven out.
        ensures drives_out { WhereTold (D.contents (drive_of self.old)) (D.contents (drive_of self.new))
            (ChangesOnly (driven_out n (numbers_cached self.old))) }
        ensures order { result ≡ DiskEnd.Ok → numbers_cached self.new ≡ after_use n (numbers_cached self.old) }
        ensures without_drive { is_listed n (numbers_cached self.old) ≡ true → (result ≡ DiskEnd.Ok) × (drive_of self.new ≡ drive_of self.old) }
        ensures count { D.count (drive_of self.new) ≡ D.count (drive_of self.old) }
        ensures later { D.faults (drive_of self.old) ≤ D.faults (drive_of self.new) }
        ensures cause { result ≡ DiskEnd.Fault → CountRose (D.faults (drive_of self.old)) (D.faults (drive_of self.new)) }
    {
        if self.cache.recall(n, into) {
            return DiskEnd::Ok;
        }
        match make_room(self.drive, &self.cache) {
            DiskEnd::Ok => match self.drive.read(n, into) {
                DriveEnd::Ok => {
                    self.cache.hold(n, into, false);
                    DiskEnd::Ok
                }
                DriveEnd::Failed => DiskEnd::Fault,
            },
            DiskEnd::Fault => DiskEnd::Fault,
        }
    }

    /// Makes these the bytes of block `n`. The drive gets them when the block is driven out, or at a flush.
    pub fn put_page(&mut self, n: u32, from: &[u8; 512]) -> DiskEnd
        requires in_range { n < D.count (drive_of self.old) }
        requires works { IsWorking D.contents D.count self.old }
        ensures same_reference { reference_of self.new ≡ reference_of self.old }
        ensures works { result ≡ DiskEnd.Ok → IsWorking D.contents D.count self.new }
        // On Ok the disk shows these bytes in block n, and every other block as before.
        ensures shows { WhereTold (shown D.contents self.old) (shown D.contents self.new) (PutLeaves result n from.now) }
        // Whatever the drive tells: on Ok the block is cached with these bytes, and the others as before, but for the one that
        // is driven out.
        ensures caches { result ≡ DiskEnd.Ok → Caches n from.now self.old self.new }
        // Whatever the answer: the same, where what is put now is among what was put.
        ensures since { (base : List (List ℕ)) (was_put : ℕ → List ℕ → Bool) → was_put n from.now ≡ true → Kept D.contents base was_put self.old
            → Kept D.contents base was_put self.new }
        // No block changes on the drive but the one that is driven out.
        ensures drives_out { WhereTold (D.contents (drive_of self.old)) (D.contents (drive_of self.new))
            (ChangesOnly (driven_out n (numbers_cached self.old))) }
        ensures order { result ≡ DiskEnd.Ok → numbers_cached self.new ≡ after_use n (numbers_cached self.old) }
        ensures without_drive { is_listed n (numbers_cached self.old) ≡ true → (result ≡ DiskEnd.Ok) × (drive_of self.new ≡ drive_of self.old) }
        // Where fewer than 16 are cached, no call is made on the drive.
        ensures not_yet { length (numbers_cached self.old) < 16 → (result ≡ DiskEnd.Ok) × (drive_of self.new ≡ drive_of self.old) }
        ensures count { D.count (drive_of self.new) ≡ D.count (drive_of self.old) }
        ensures later { D.faults (drive_of self.old) ≤ D.faults (drive_of self.new) }
        ensures cause { result ≡ DiskEnd.Fault → CountRose (D.faults (drive_of self.old)) (D.faults (drive_of self.new)) }
    {
        if self.cache.replace(n, from) {
            return DiskEnd::Ok;
        }
        match make_room(self.drive, &self.cache) {
            DiskEnd::Ok => {
                self.cache.hold(n, from, true);
                DiskEnd::Ok
            }
            DiskEnd::Fault => DiskEnd::Fault,
        }
    }

    /// Writes what was put and is not written yet. After `Ok` the drive has all blocks as the disk shows them.
    pub fn flush(&mut self) -> DiskEnd
        requires works { IsWorking D.contents D.count self.old }
        ensures same_reference { reference_of self.new ≡ reference_of self.old }
        ensures works { result ≡ DiskEnd.Ok → IsWorking D.contents D.count self.new }
        ensures shows { WhereTold (shown D.contents self.old) (shown D.contents self.new) (λ old new. result ≡ DiskEnd.Ok → new ≡ old) }
        ensures settles { result ≡ DiskEnd.Ok → D.contents (drive_of self.new) ≡ shown D.contents self.new }
        // Whatever the drive tells: after Ok no cached block is left to be written.
        ensures clean { result ≡ DiskEnd.Ok → IsClean self.new }
        // From an Ok on each block is as it is now, or is one that is put.
        ensures begins { result ≡ DiskEnd.Ok → (was_put : ℕ → List ℕ → Bool) → ForSome (D.contents (drive_of self.new))
            (λ base. Kept D.contents base was_put self.new) }
        // Whatever the answer: each block that the drive has is as it was at an earlier flush, or was put since.
        ensures since { (base : List (List ℕ)) (was_put : ℕ → List ℕ → Bool) → Kept D.contents base was_put self.old → Kept D.contents base was_put self.new }
        ensures order { numbers_cached self.new ≡ numbers_cached self.old }
        ensures caches { (n : ℕ) → cached n self.new ≡ cached n self.old }
        ensures count { D.count (drive_of self.new) ≡ D.count (drive_of self.old) }
        ensures later { D.faults (drive_of self.old) ≤ D.faults (drive_of self.new) }
        ensures cause { result ≡ DiskEnd.Fault → CountRose (D.faults (drive_of self.old)) (D.faults (drive_of self.new)) }
    {
        match write_all(self.drive, &self.cache) {
            DiskEnd::Ok => {
                self.cache.settle();
                DiskEnd::Ok
            }
            DiskEnd::Fault => DiskEnd::Fault,
        }
    }
}
