//! A run of a code with the dump of its end, on a drive, an input, a terminal and a printer. Which text is the dump of a text, and of a code, is
//! `IsDumpOf` (`specs/Dumps`).
#![tactic(auto)]

mod execution;
mod known;
pub mod laws;
mod run;
pub mod standing_laws;

pub use run::{Dumped, dump_on};
