//! Worked examples of the program `edison`, by its one call over the forms in memory. Each file has scripts, which `play` plays.
#![tactic(auto)]

pub mod explorations;
#[cfg(test)]
mod rows;
