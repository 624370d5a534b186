//! How a system call ends.

/// The end of one system call.
#[derive(Clone, Copy, Debug, PartialEq, Eq, Drop)]
pub enum CallEnd {
    /// The call took effect, and its answer was given.
    Ok,
    /// There is no found file, or no file that is being written.
    NoFile,
    /// The file that is written has its greatest length already.
    FileLimit,
    /// An object outside the machine failed.
    OutsideFault,
}

/// The objects outside the machine that a system call may use.
#[derive(Clone, Copy, Debug, PartialEq, Eq, Drop)]
pub enum Outside {
    /// The disk drive, which has the files.
    Drive,
    /// The input of the terminal.
    Input,
    /// The output of the terminal.
    Terminal,
    /// The printer.
    Printer,
}
