//! Why a text has no symbols.

use thiserror::Error;

/// The first fault of a text. Lines are counted from 1.
#[derive(Clone, Copy, Debug, PartialEq, Eq, Error)]
pub enum LexFault {
    /// On this line begins something that is no symbol, separator or comment.
    #[error("line {0} invalid character")]
    BadCharacter(u16),
    /// On this line stands a numeral above 32767.
    #[error("line {0} invalid numeral")]
    BadNumeral(u16),
    /// The text has more than 262,144 bytes or more than 65,534 line feeds.
    #[error("line 0 text too long")]
    TooLong,
    /// Memory ran out.
    #[error("no memory")]
    NoMemory,
}
