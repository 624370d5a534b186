//! The text that tells the first fault of a program.

mod advice;
mod explained;
mod foreign;
pub(crate) mod groups;
pub mod laws;
mod lexical;
mod names;
mod notes;
pub(crate) mod numbers;
mod sentences;
mod source;
mod stray;
mod table;
mod undeclared;
mod words;
mod wrong;

pub use explained::explain;
