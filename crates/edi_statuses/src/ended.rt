//! How a command ended, before its status is shown.

use crate::status::Status;

/// How a command ended. The line of its status is still to be shown.
#[derive(Clone, Copy, Debug, PartialEq, Eq)]
pub struct Ended {
    /// The status.
    pub status: Status,
    /// Whether a line feed is due before the line: the command has shown bytes, and the last of them was none.
    pub due: bool,
}
