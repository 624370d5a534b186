//! Code that is run on a system, and on a drive, an input, a terminal and a printer.
#![tactic(auto)]

mod execution;
mod run;

pub use execution::execute;
pub use run::{Ran, run_on};
