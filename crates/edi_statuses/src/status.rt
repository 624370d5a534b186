//! How a call ends.

ghost use Rattle.std.specs.Prelude.{◌≡◌, option_map};
ghost use Rattle.edi_statuses.specs.Lines as lines;
ghost use Rattle.edi_statuses.specs.Numbers as numbers;
ghost use Rattle.edi_statuses.specs.declared.status.Status.TheVariants as status;

use crate::lines::{Line, text_of};
use edi_calls::Cause;
use edi_image::MountFault;
use edi_target::CodeFault;
use edi_texts::RefusalKind;
use std::alloc::AllocError;
use std::fmt;

/// How a call ended.
#[derive(Clone, Copy, Debug, PartialEq, Eq)]
pub enum Status {
    /// The command did what it says; the program that ran came to its end; the session was halted or its input ended.
    Ok,
    /// The words are not those of a command.
    Words,
    /// The text has this first fault, on this line, counted from 1; the line of a text that is too long is 0.
    Refused(RefusalKind, u16),
    /// The program failed for this cause, on this line, or called `halt` there.
    Stopped(Cause, u16),
    /// The bound on the turns was used up.
    Turns,
    /// Memory ran out.
    NoMemory,
    /// The files have failed.
    FileFault,
    /// The drive has failed.
    DriveFault,
    /// The input has failed.
    InputFault,
    /// The terminal or the printer has failed.
    OutputFault,
    /// The image of the drive, or the old image, breaks this first rule.
    BadImage(MountFault),
    /// The code file has this first fault.
    BadCode(CodeFault),
    /// The instruction at this address has no meaning in the state that it met.
    BadState(u32),
    /// No file has the name, or no slot the title, that the words have.
    Absent,
    /// This line of the choices file, counted from 1, is the first bad one.
    BadChoices(u32),
    /// The session took as many bytes as it may and asked for another.
    SessionLimit,
    /// The disk has too few free blocks, or no free slot.
    DiskFull,
    /// The file is longer than a file of a disk may be.
    FileLarge,
    /// No process can go on any more.
    Standstill,
    /// This line of the file of points, counted from 1, is the first bad one.
    BadPoints(u32),
    /// The exploration has found so many endings that are not `done`.
    Found(usize),
    /// The exploration has found no ending but `done`, and there may be others.
    NotAll,
    /// The input of the program that was to be explored is longer than it may be.
    InputLimit,
    /// No execution of the program that was explored ends.
    NoEnding,
}

impl Status {
    /// The exit status of the program, 0 to 22.
    pub fn number(&self) -> u8
        ensures exact { result ≡ numbers.status_number self.now }
    {
        match self {
            Status::Ok => 0,
            Status::Words => 1,
            Status::Refused(_, _) => 2,
            Status::Stopped(_, _) => 3,
            Status::Turns => 4,
            Status::NoMemory => 5,
            Status::FileFault => 6,
            Status::DriveFault => 7,
            Status::InputFault => 8,
            Status::OutputFault => 9,
            Status::BadImage(_) => 10,
            Status::BadCode(_) | Status::BadState(_) => 11,
            Status::Absent => 12,
            Status::BadChoices(_) => 13,
            Status::SessionLimit => 14,
            Status::DiskFull => 15,
            Status::FileLarge => 16,
            Status::Standstill => 17,
            Status::BadPoints(_) => 18,
            Status::Found(_) => 19,
            Status::NotAll => 20,
            Status::InputLimit => 21,
            Status::NoEnding => 22,
        }
    }

    /// The line of the status without its line feed, as `line 4 range`. `Ok` and `OutputFault` have none. Takes no memory.
    pub fn line(&self) -> Option<Line>
        ensures exact { option_map (λ line. line.bytes) result ≡ lines.text_of self.now }
    {
        text_of(*self)
    }
}

impl From<AllocError> for Status {
    ghost from_gives = { λ _ s. s ≡ status.NoMemory };

    fn from(_error: AllocError) -> Self {
        Status::NoMemory
    }
}

impl fmt::Display for Status {
    fn fmt<W: fmt::Write>(&self, f: &mut fmt::Formatter<W>) -> fmt::Result {
        match self {
            Status::Ok => f.write_str("ok"),
            Status::OutputFault => f.write_str("output fault"),
            _ => match text_of(*self) {
                Some(line) => f.write_str(line.as_str()),
                None => Ok(()),
            },
        }
    }
}
