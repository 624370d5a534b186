//! The lines that the shell shows, each with its line feed, made without memory.

mod entries;
mod lines;

pub use entries::{entry_line, free_line};
pub use lines::{Shown, about, change_refusal, ending_line, fault_line, plain, with_number};
