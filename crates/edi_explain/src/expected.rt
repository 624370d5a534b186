//! The symbols that may stand after marks.

mod after;
pub mod laws;
mod parser;
mod rules;
mod waiting;

pub(crate) use after::expected_behind;
pub use after::{Expected, expected_after};
pub use parser::Step;
pub use waiting::{Held, opened};
