//! The command that the words after the program's name are.
#![tactic(auto)]

mod commands;
mod given;
mod operands;
mod parser;
mod rows;
mod table;

pub use commands::{Account, ChoicesFrom, Command, ExploreOptions, Options};
pub use parser::command;
