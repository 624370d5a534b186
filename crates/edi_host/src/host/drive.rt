//! The adapter over a file of blocks.

ghost use Rattle.std.specs.Prelude.{◌≡◌, ◌<◌, ◌≤◌, IsErrAnd, is_err, true};
ghost use Rattle.std.specs.IoError.{error_kind};
ghost use Rattle.edi_told.specs.Faults.{CountRose};
ghost use Rattle.edi_host.specs.Blocks.{drive_fault, resize_fault, CountLeaves};
ghost use Rattle.edi_host.specs.Images.{is_broken};
ghost use Rattle.edi_host.specs.Plan.{faults_after};

use crate::drive::{Drive, DriveEnd, ResizeEnd};
use crate::host::transfer::{read_full, write_all};
use crate::sink::PutEnd;
use edi_told::one_more;
use std::alloc::Global;
use std::fs::{OpenFile, OpenOptions};
use std::io::{ErrorKind, Read, Seek, SeekFrom, Write};
use std::marker::Model;
use std::{io, rt};

/// The name of the file that stands for the drive, in the current folder.
pub const DRIVE_FILE: &str = "edison.disk";

// The bytes of a block.
const BLOCK_LENGTH: u64 = 512;

// The number of blocks of a drive whose file is there and cannot be used.
const BROKEN_BLOCKS: u32 = 64;

// What the name of the file stands for.
#[derive(Drop)]
enum Image<F: Drop> {
    // No file.
    Missing,
    // A file that is open for reading and writing.
    Open(F),
    // A file that cannot be opened for reading and writing.
    Broken,
}

/// The drive in the file `edison.disk`. No file is 0 blocks. Bytes after the last whole block are not seen.
/// A file that is there and cannot be opened for reading and writing is 64 blocks of which every call fails.
#[derive(Drop)]
pub struct HostDrive<'a, R: rt::Files> {
    rt: &'a R,
    image: Image<R::File>,
    blocks: u32,
    faults: u64,
}

impl<'a, R: rt::Files> Model for HostDrive<'a, R> {
    ghost use Rattle.edi_host.specs.Forms.{UntoldDrive};
    ghost use Rattle.edi_host.specs.Images.{is_broken};

    ghost Value = { UntoldDrive };

    ghost view = { λ d. record { count = d.blocks; broken = is_broken d.image; faults = d.faults } };
}

// Opens the file, and tells how many blocks it has.
fn open_image<R: rt::Files>(rt: &R) -> (Image<R::File>, u32)
    ensures broken { is_broken result.0 ≡ true → result.1 ≡ 64 }
{
    match OpenOptions::new()
        .read(true)
        .write(true)
        .open(rt, DRIVE_FILE)
    {
        Ok(file) => match file.metadata() {
            Ok(about) => {
                let blocks = (about.len() / BLOCK_LENGTH).min(u64::from(u32::MAX));
                (Image::Open(file), blocks as u32)
            }
            Err(_) => (Image::Broken, BROKEN_BLOCKS),
        },
        Err(e) if e.kind() == ErrorKind::NotFound => (Image::Missing, 0),
        Err(_) => (Image::Broken, BROKEN_BLOCKS),
    }
}

// The file, made where there is none.
fn create_image<R: rt::Files>(rt: &R) -> io::Result<R::File> {
    OpenOptions::new()
        .read(true)
        .write(true)
        .create(true)
        .open(rt, DRIVE_FILE)
}

fn read_block<F: Read + Seek>(file: &mut F, n: u32, into: &mut [u8; 512]) -> io::Result<()> {
    file.seek(SeekFrom::Start(u64::from(n) * BLOCK_LENGTH))?;
    read_full(file, into)
}

fn write_block<F: Write + Seek>(file: &mut F, n: u32, from: &[u8; 512]) -> io::Result<()> {
    file.seek(SeekFrom::Start(u64::from(n) * BLOCK_LENGTH))?;
    match write_all(file, from).end {
        PutEnd::Ok => Ok(()),
        PutEnd::Failed => Err(io::Error::from(ErrorKind::Other)),
    }
}

// Sets the length of a file that has `blocks` blocks. Before it grows, the bytes after its last block are
// cut off, so that all new bytes are zeros.
fn set_blocks<F: OpenFile>(file: &F, blocks: u32, n: u32) -> io::Result<()> {
    if blocks < n {
        file.set_len(u64::from(blocks) * BLOCK_LENGTH)?;
    }
    file.set_len(u64::from(n) * BLOCK_LENGTH)
}

impl<'a, R: rt::Files> HostDrive<'a, R> {
    /// The drive in the current folder of the host that `rt` stands for.
    pub fn new(rt: &'a R) -> Self
        ensures no_faults { result.faults ≡ 0 }
        ensures broken { result.broken ≡ true → result.count ≡ 64 }
    {
        let (image, blocks) = open_image(rt);
        HostDrive {
            rt,
            image,
            blocks,
            faults: 0,
        }
    }

    /// The drive while another call of the program holds its file: 64 blocks of which every call fails.
    pub fn busy(rt: &'a R) -> Self
        ensures no_faults { result.faults ≡ 0 }
        ensures broken { result.broken ≡ true }
        ensures count { result.count ≡ 64 }
    {
        HostDrive {
            rt,
            image: Image::Broken,
            blocks: BROKEN_BLOCKS,
            faults: 0,
        }
    }

    // Sets the length of the file, which is made where there is none.
    fn set_length(&mut self, n: u32) -> io::Result<()>
        ensures same { self.new ≡ self.old }
        ensures broken { self.old.broken ≡ true → IsErrAnd result (λ e. error_kind e ≡ ErrorKind.Other) }
    {
        if let Image::Missing = self.image {
            self.image = Image::Open(create_image(self.rt)?);
        }
        match &self.image {
            Image::Open(file) => set_blocks(file, self.blocks, n),
            _ => Err(io::Error::from(ErrorKind::Other)),
        }
    }

    // The answer to a read or a write, counted.
    fn answer(&mut self, outcome: io::Result<()>) -> DriveEnd
        ensures fails { drive_fault result ≡ is_err outcome }
        ensures same { self.new ≡ record self.old { faults = faults_after (drive_fault result) self.old.faults } }
    {
        match outcome {
            Ok(()) => DriveEnd::Ok,
            Err(_) => {
                self.faults = one_more(self.faults);
                DriveEnd::Failed
            }
        }
    }
}

impl<'a, R: rt::Files> Drive for HostDrive<'a, R> {
    ghost use Rattle.std.specs.Prelude.{None};

    ghost contents = { λ s. None };

    ghost count = { λ s. s.count };

    ghost faults = { λ s. s.faults };

    ghost counted = { λ s. tt };

    ghost sized = { λ s. tt };

    fn blocks(&self) -> u32 {
        self.blocks
    }

    fn read(&mut self, n: u32, into: &mut [u8; 512]) -> DriveEnd
        requires { n < self.old.count }
        ensures count { self.new.count ≡ self.old.count }
        ensures later { self.old.faults ≤ self.new.faults }
        ensures cause { result ≡ DriveEnd.Failed → CountRose self.old.faults self.new.faults }
        ensures broken { self.old.broken ≡ true → result ≡ DriveEnd.Failed }
        ensures stays { self.new.broken ≡ self.old.broken }
        ensures faults { self.new.faults ≡ faults_after (drive_fault result) self.old.faults }
    {
        let outcome = match &mut self.image {
            Image::Open(file) => read_block(file, n, into),
            _ => Err(io::Error::from(ErrorKind::Other)),
        };
        self.answer(outcome)
    }

    fn write(&mut self, n: u32, from: &[u8; 512]) -> DriveEnd
        requires { n < self.old.count }
        ensures count { self.new.count ≡ self.old.count }
        ensures later { self.old.faults ≤ self.new.faults }
        ensures cause { result ≡ DriveEnd.Failed → CountRose self.old.faults self.new.faults }
        ensures broken { self.old.broken ≡ true → result ≡ DriveEnd.Failed }
        ensures stays { self.new.broken ≡ self.old.broken }
        ensures faults { self.new.faults ≡ faults_after (drive_fault result) self.old.faults }
    {
        let outcome = match &mut self.image {
            Image::Open(file) => write_block(file, n, from),
            _ => Err(io::Error::from(ErrorKind::Other)),
        };
        self.answer(outcome)
    }

    /// A length that cannot be set leaves the number of blocks as it was.
    fn resize(&mut self, alloc: Global, n: u32) -> ResizeEnd
        ensures count { CountLeaves result n self.old.count self.new.count }
        ensures failed_count { result ≡ ResizeEnd.Failed → self.new.count ≡ self.old.count }
        ensures later { self.old.faults ≤ self.new.faults }
        ensures cause { result ≡ ResizeEnd.Failed → CountRose self.old.faults self.new.faults }
        ensures broken { self.old.broken ≡ true → result ≡ ResizeEnd.Failed }
        ensures stays { self.new.broken ≡ self.old.broken }
        ensures faults { self.new.faults ≡ faults_after (resize_fault result) self.old.faults }
    {
        let _ = alloc;
        match self.set_length(n) {
            Ok(()) => {
                self.blocks = n;
                ResizeEnd::Ok
            }
            Err(e) if e.kind() == ErrorKind::OutOfMemory => ResizeEnd::NoMemory,
            Err(_) => {
                self.faults = one_more(self.faults);
                ResizeEnd::Failed
            }
        }
    }
}
