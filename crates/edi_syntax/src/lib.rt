//! From the symbols of an Edison program to its syntax tree, or to the first fault of the grammar; the parsing functions of
//! statements, procedures, modules and declarations.
#![tactic(auto)]

pub mod declarations;
mod fault;
mod inside;
pub mod laws;
mod programs;
pub mod statements;

pub use fault::SyntaxFault;
pub use programs::{parse, parse_program};
