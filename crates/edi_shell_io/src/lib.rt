//! What the shell reads, shows and calls: a line as a command, the lines that it shows, and the object that it works on.
#![tactic(auto)]

pub mod calls;
pub mod lines;
pub mod words;
