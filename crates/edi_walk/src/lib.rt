//! A walk through a program: a choice at every step.
#![tactic(auto)]

mod asking;
mod calling;
mod data;
mod entry;
mod evaluate;
mod evaluation;
mod forking;
mod frames;
mod hurdle;
pub mod laws;
mod lists;
mod local;
mod memory;
mod operators;
mod procedures;
mod process;
mod reading;
mod running;
mod statements;
mod stepping;
mod stop;
mod values;
mod walker;
mod walking;
mod zero;

pub use walking::{WalkEnd, walk};
