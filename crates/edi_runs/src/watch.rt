//! A text that is watched: its program, its code, and a run of it, with a log, on a drive, an input, a terminal and a printer.

mod execution;
pub mod laws;
mod run;
mod source;

pub use run::watch_on;
pub use source::{Watchable, read_watchable};
