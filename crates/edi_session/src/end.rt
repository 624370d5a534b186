//! How a session ends.

/// How a session ended.
#[derive(Clone, Copy, Debug, PartialEq, Eq)]
pub enum SessionEnd {
    /// A line was `halt`.
    Halted,
    /// The input ended before a command line began, in a text that was entered, or in an editing.
    InputEnd,
    /// The shell had taken 4,194,304 bytes and asked for another.
    Limit,
    /// The drive has failed.
    DriveFault,
    /// The input has failed.
    InputFault,
    /// The terminal has failed.
    TerminalFault,
    /// The printer has failed.
    PrinterFault,
}
