//! From the text of an Edison program to its symbols, each with its line, or to the first fault of the text.
//! The text may come whole or in pieces.
#![tactic(auto)]

mod bytes;
mod cutter;
mod effect;
mod fault;
pub mod laws;
mod scanner;
mod symbol;
mod text;
mod words;

pub use bytes::{is_digit, is_letter, is_separator};
pub use fault::LexFault;
pub use scanner::{Scanner, scan};
pub use symbol::{Mark, Marks, Symbol, Symbols};
pub use text::Text;
