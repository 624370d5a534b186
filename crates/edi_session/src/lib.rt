//! What a session of the shell is: its lines, its texts, its state, and what each line does. Only definitions.
#![tactic(auto)]

mod end;
pub mod ends;
pub mod laws;
mod line;

pub use end::SessionEnd;
pub use line::{EditLine, Line};
