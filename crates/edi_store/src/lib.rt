//! The memory of the machine, 65,536 words, and the shares of it that processes get.
#![tactic(auto)]

mod segment;
mod store;

pub use segment::{Segment, carve, shares_are_apart};
pub use store::{MEMORY_WORDS, Store};
