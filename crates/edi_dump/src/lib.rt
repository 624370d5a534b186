//! The text of who stands where at the end of a run, and of what its variables hold: `dump_text` (`specs/Text`). The text of a value, read off the
//! words that hold it, is `words_text` (`specs/values/Words`).
#![tactic(auto)]

mod blocks;
mod dump;
mod frames;
pub mod jump_laws;
mod known;
pub mod laws;
mod lines;
mod memory;
mod names;
mod raw;
mod scene;
mod values;

pub use dump::dump_of;
pub use known::Known;
pub use names::put_process;
