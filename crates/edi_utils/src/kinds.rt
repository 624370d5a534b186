//! Which utility program.

/// A utility program.
#[derive(Clone, Copy)]
pub enum Utility {
    /// Copies the first file to the second, and shows `done` or `not done`.
    CopyText,
    /// Compares two files, and shows `equal` or `different`.
    Compare,
    /// Shows how many line feeds a file has.
    Count,
    /// Prints a file, with a form feed after each 60 lines.
    Pages,
}
