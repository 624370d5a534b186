//! The command `edit f` of the shell, with all lines of its editing.

mod changes;
mod editing;
mod looking;
mod opening;
mod taking;
mod writing;

pub use opening::edit_file;
