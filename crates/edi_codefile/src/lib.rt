//! Code files: the bytes of a code, and the code that bytes hold.
#![tactic(auto)]

mod fields;
mod header;
mod loading;
mod packing;
mod words;

pub use loading::load;
pub use packing::pack;
