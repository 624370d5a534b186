//! The kinds of files, and the causes of failures.

/// What a stored file holds: a text, or the code of a program.
#[derive(Clone, Copy, Debug, PartialEq, Eq, Drop)]
pub enum FileKind {
    /// A text, which programs read and write.
    Text,
    /// The code of a program, which is executed.
    Code,
}

/// Why a program failed. A failure ends the whole run, with all processes.
#[derive(Clone, Copy, Debug, PartialEq, Eq, Drop)]
pub enum Cause {
    /// A number left its range: a result outside `int`, a divisor that is 0, an index outside its array, an
    /// ordinal that is no value of its type, or a member that no set can hold.
    Range,
    /// The variables of a called procedure, or of a branch, need more memory than its process has left.
    VariableLimit,
    /// A concurrent statement would make more than 32 live processes.
    ProcessLimit,
    /// A `when` or `cobegin` was reached in a critical phase, or inside a function call.
    Held,
    /// A file was read that was not found, or written before it was begun.
    NoFile,
    /// The file that is written has its greatest length already.
    FileLimit,
    /// The program called `halt`.
    Halt,
}
