//! All that is outside of a call of `edison`, in memory.

use edi_explore::Watcher;
use edi_host::{MemoryDrive, MemoryFiles, MemorySink, MemorySource};
use edi_kernel::Kernel;
use edi_main::edison;
use std::alloc::Global;
use std::process::Abort;

/// Room for all that a terminal or a printer takes.
const ROOM: usize = 65_536;

/// The devices that a program sees.
#[derive(Drop)]
pub struct Devices {
    pub drive: MemoryDrive,
    pub input: MemorySource,
    pub terminal: MemorySink,
    pub printer: MemorySink,
}

impl Devices {
    /// A drive without blocks, no input, and sinks with room. None of them fails.
    pub fn new(rt: &impl Abort, alloc: Global) -> Devices {
        Devices {
            drive: MemoryDrive::new(alloc, &[], &[], false).expect(rt, "memory"),
            input: MemorySource::new(alloc, &[], &[]).expect(rt, "memory"),
            terminal: MemorySink::new(alloc, ROOM, &[]).expect(rt, "memory"),
            printer: MemorySink::new(alloc, ROOM, &[]).expect(rt, "memory"),
        }
    }
}

/// A watcher that keeps nothing.
#[derive(Clone, Copy)]
struct Nobody;

impl Watcher for Nobody {
    ghost use Rattle.std.specs.Prelude.{None};

    ghost seen = { λ s. None };

    fn tell(&mut self, _states: usize) {}
}

/// The files of the host, the devices, and a kernel.
#[derive(Drop)]
pub struct World {
    pub files: MemoryFiles,
    pub devices: Devices,
    kernel: Kernel,
}

impl World {
    /// No files, no disk, no input, and a kernel that has run nothing.
    pub fn new(rt: &impl Abort, alloc: Global) -> World {
        World {
            files: MemoryFiles::new(alloc, &[]).expect(rt, "memory"),
            devices: Devices::new(rt, alloc),
            kernel: Kernel::new(alloc).expect(rt, "memory"),
        }
    }

    /// Puts a file of the host in, whose name is new.
    pub fn add(&mut self, rt: &impl Abort, alloc: Global, name: &str, bytes: &[u8]) {
        assert!(rt; self.files.get(name).is_none(), "{name}");
        self.files.add(alloc, name, bytes).expect(rt, "memory");
    }

    /// The number of the status of a call with these words, which blanks part.
    pub fn call(&mut self, rt: &impl Abort, alloc: Global, words: &str) -> u8 {
        let list = words_of(rt, alloc, words);
        let status = edison(
            alloc,
            &list,
            &mut self.files,
            &mut self.devices.drive,
            &mut self.devices.input,
            &mut self.devices.terminal,
            &mut self.devices.printer,
            &mut self.kernel,
            &mut Nobody,
        );
        status.number()
    }
}

/// The words of a text, which blanks part.
fn words_of(rt: &impl Abort, alloc: Global, words: &str) -> Vec<String> {
    let mut list = Vec::new(alloc);
    for word in words.split(' ') {
        let word = String::from_str(alloc, word).expect(rt, "memory");
        list.push(word).expect(rt, "memory");
    }
    list
}
