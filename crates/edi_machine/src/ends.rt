//! How an instruction ends.

use edi_calls::Cause;

/// Why a turn is due.
#[derive(Clone, Copy, PartialEq, Eq, Debug)]
pub enum TurnKind {
    /// A procedure or a function was entered.
    Enter,
    /// A procedure or a function was left.
    End,
    /// A loop's body came to its end.
    Loop,
    /// The process arrived at a `when`.
    Arrive,
    /// No condition of a `when` was true; the process stands at it again. True where none of the conditions calls a
    /// function.
    Again(bool),
    /// The process forks at the COBEGIN at this address of the code, all of whose checks passed.
    Fork(u32),
    /// A branch came to its end.
    Exit,
    /// The program came to its end.
    ProgramEnd,
}

/// How an instruction ends.
#[derive(Clone, Copy, PartialEq, Eq, Debug)]
pub enum StepEnd {
    /// The activity goes on.
    On,
    /// The instruction was executed, and a turn is due.
    Turn(TurnKind),
    /// The program fails for this cause at this line, or halts. Nothing has changed.
    Fail(Cause, u16),
    /// The instruction at this address of the code is refused. Nothing has changed.
    Bad(u32),
    /// An object outside the machine failed in a system call. The store and the activity have not changed.
    Fault,
}
