//! The system that a program and the shell see, over a drive with files, an input, a terminal and a printer.
#![tactic(auto)]

mod buffer;
mod calls;
mod ends;
mod files;
mod finding;
mod reading;
mod streams;
mod system;
mod writing;

pub use buffer::Buffer;
pub use ends::Stop;
pub use system::System;
