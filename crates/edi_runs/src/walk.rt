//! A walk through the program of a text on a drive that is mounted, an input, a terminal and a printer.

mod execution;
pub mod laws;
mod run;

pub use run::{Walked, walk_on};
