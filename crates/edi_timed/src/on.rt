//! A run with its timeline, on a system, and on a drive. Which timeline is that of a text, and of a code, is `IsTimelineOf` (`specs/on/Timelines`).

mod execution;
pub mod laws;
mod run;

pub use run::time_on;
