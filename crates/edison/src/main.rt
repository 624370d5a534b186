//! The program `edison`: the top call over the host's files and drive, its standard input and output, and a kernel.
#![tactic(auto)]

mod hints;
mod progress;

use edi_host::{DRIVE_FILE, HostDrive, HostFiles, HostSink, HostSource};
use edi_kernel::Kernel;
use edi_main::{Status, edison};
use progress::Progress;
use std::env;
use std::fs::{File, OpenOptions, TryLockError};
use std::io::{self, ErrorKind, Input};
use std::process::ExitCode;

/// The words after the program's name. Where one is not UTF-8 they are no command, as no words are.
fn words_of(rt: &HostRuntime) -> io::Result<Vec<String>> {
    match env::args(rt) {
        Ok(args) => Ok(args.skip(1).collect(rt.alloc())?),
        Err(error) if error.kind() == ErrorKind::OutOfMemory => Err(error),
        Err(_) => Ok(Vec::new(rt.alloc())),
    }
}

// The commands that never ask the drive.
const WITHOUT_DRIVE: [&str; 6] = ["compile", "list", "check", "explain", "explore", "demo"];

/// The drive, with what holds its file until the call ends. Two calls at once would write over each other's blocks, so who comes
/// second has a drive of which every call fails. A command that never asks the drive holds nothing.
fn held_drive<'a>(
    rt: &'a HostRuntime,
    words: &[String],
) -> (Option<File>, HostDrive<'a, HostRuntime>) {
    match words.first() {
        Some(first) if WITHOUT_DRIVE.contains(&first.as_str()) => return (None, HostDrive::new(rt)),
        _ => {}
    }
    match OpenOptions::new()
        .read(true)
        .write(true)
        .open(rt, DRIVE_FILE)
    {
        Ok(file) if matches!(file.try_lock(), Err(TryLockError::WouldBlock)) => (
            None,
            HostDrive::busy(rt),
        ),
        Ok(file) => (Some(file), HostDrive::new(rt)),
        Err(_) => (None, HostDrive::new(rt)),
    }
}

fn main(rt: HostRuntime) -> ExitCode {
    // The number of a standard stream that the caller has closed is given to the next file that is opened, and what the program
    // shows would then be written there. So files that can only be read have such numbers to the end.
    let _closed = [
        File::open(&rt, "/dev/null"),
        File::open(&rt, "/dev/null"),
        File::open(&rt, "/dev/null"),
    ];
    let mut printer = HostSink::printer(&rt);
    let Ok(words) = words_of(&rt) else {
        return ExitCode::from(Status::NoMemory.number());
    };
    let Ok(mut kernel) = Kernel::new(rt.alloc()) else {
        return ExitCode::from(Status::NoMemory.number());
    };
    let mut files = HostFiles::new(&rt);
    let (_held, mut drive) = held_drive(&rt, &words);
    let mut input = HostSource::new(rt.reader());
    let mut terminal = HostSink::new(io::writer(&rt));
    let mut progress = Progress::new(&rt);
    let status = edison(
        rt.alloc(),
        &words,
        &mut files,
        &mut drive,
        &mut input,
        &mut terminal,
        &mut printer,
        &mut kernel,
        &mut progress,
    );
    hints::show(&rt, &words, status);
    ExitCode::from(status.number())
}
