//! The faults of the grammar.

use thiserror::Error;

/// The first symbol at which a text is no program, with the line on which it stands, counted from 1, and its place: how many
/// symbols stand before it. The end of the text counts as a symbol here, on the line of the end.
#[derive(Clone, Copy, Debug, PartialEq, Eq, Error)]
pub enum SyntaxFault {
    /// With this symbol the symbols begin no program.
    #[error("line {line} invalid syntax")]
    Syntax { line: u16, index: u32 },
    /// The symbol may stand here and opens a 65th level.
    #[error("line {line} nesting too deep")]
    TooDeep { line: u16, index: u32 },
    /// With this symbol the symbols begin no program, and Edison has it there: `lib`, or `:` behind a `begin` whose closing
    /// `end` does not stand before it.
    #[error("line {line} not in profile")]
    NotInProfile { line: u16, index: u32 },
    /// Memory is wanting.
    #[error("no memory")]
    NoMemory,
}
