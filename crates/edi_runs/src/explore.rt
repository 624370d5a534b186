//! A text that is explored: all its endings, in the words of the text; whether its program asks for input, and that input; what its branches use
//! outside critical phases, and what is said of every order of steps; the lines that tell all this, and the files that keep the choices.

mod input;
pub mod laws;
mod lines;
mod naming;
mod openness;
mod orders;
mod output;
mod records;
mod summary;
mod text;
mod waiting;
mod words;

pub use input::{InputFault, MOST_INPUT, names_accept, read_input};
pub use lines::report_text;
pub use openness::{OpenNames, Openness, openness_of};
pub use orders::{Exploration, Orders};
pub use records::{keep_records, record_name};
pub use summary::{Summary, sum_up};
pub use text::explore_text;
