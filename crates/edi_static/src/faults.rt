//! The faults that the static rules tell.

use thiserror::Error;

/// The rule that a construct breaks.
#[derive(Clone, Copy, PartialEq, Eq, Debug)]
pub enum StaticKind {
    /// A name that is used means nothing at its place.
    Undeclared,
    /// A scope that was to get the name has it already.
    Ambiguous,
    /// A name does not mean what is asked for at its place.
    Kind,
    /// Operands, bounds or parts do not have the types that they must have.
    Types,
    /// Something is larger than it may be.
    Range,
    /// A call does not fit the heading of what it calls.
    Call,
    /// A constructor does not fit its type.
    Constructor,
    /// The two parts of a split procedure do not belong together.
    Split,
    /// The heading of the program is not one that a program may have.
    Heading,
    /// A standard name of the published language that this profile leaves out.
    NotInProfile,
}

/// Why a tree has no resolved unit.
#[derive(Clone, Copy, PartialEq, Eq, Debug, Error)]
pub enum StaticFault {
    /// The first construct that breaks a rule breaks this one, at this line.
    #[error("a construct breaks a static rule")]
    At { kind: StaticKind, line: u16 },
    /// There was no memory for it.
    #[error("no memory")]
    NoMemory,
}

/// What a construct gives, or why there is no resolved unit.
pub type Judged<T> = Result<T, StaticFault>;
