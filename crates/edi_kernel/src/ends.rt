//! How runs and stints end.

use edi_calls::Cause;

/// How a run ends.
#[derive(Clone, Copy, PartialEq, Eq, Debug)]
pub enum Ending {
    /// The program came to its end.
    Done,
    /// The program called `halt` at this line of its text.
    Halted(u16),
    /// The program failed for this cause at this line of its text.
    Failed(Cause, u16),
    /// The bound on the turns was used up, and another turn was due.
    Turns,
    /// No process can go on any more.
    Standstill,
    /// The instruction at this address of the code has no meaning in the state that it met.
    Bad(u32),
    /// An object outside the machine failed in a system call.
    Fault,
}

/// How the stint of a process ends, and the number of turns that were taken in it.
#[derive(Clone, Copy, PartialEq, Eq, Debug)]
pub enum StintEnd {
    /// The process stands at a `when`, and is the last of those that are ready.
    Arrived { used: u64 },
    /// The process waits for its children, which are the last of those that are ready.
    Forked { used: u64 },
    /// The process has ended.
    Exited { used: u64 },
    /// The run has ended.
    Over { used: u64, ending: Ending },
}
