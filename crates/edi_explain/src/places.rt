//! Where the symbols of a text stand in it.

mod classes;
mod cuts;
pub mod laws;

pub use classes::Class;
pub use cuts::{Cut, cut_of, place_of};
