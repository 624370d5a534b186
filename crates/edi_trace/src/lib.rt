//! The choices that a run takes, and the files that keep them.
#![tactic(auto)]

mod choices;
mod file;
pub mod laws;

pub use choices::Choices;
pub use file::{ChoiceFault, read_choices, write_choices};
