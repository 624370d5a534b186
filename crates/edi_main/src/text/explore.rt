//! `explore FILE`: its program, its input, what is found, and how it ends.

mod ending;
mod exploring;
mod inputs;
mod programs;
mod reports;

pub use exploring::explore_file;
