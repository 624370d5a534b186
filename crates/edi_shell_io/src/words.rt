//! What a line means to the shell, and to the editing of a text. Nothing here takes memory.

mod command_lines;
mod edit_lines;
mod words;

pub use command_lines::command_line;
pub use edit_lines::edit_line;
