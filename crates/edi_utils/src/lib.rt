//! The listing of a code, the text of the demonstration, and the utility programs.
#![tactic(auto)]

pub mod demonstrated;
mod demonstration;
mod kinds;
pub mod laws;
mod lines;
mod names;
mod utilities;

pub use demonstration::demo;
pub use kinds::Utility;
pub use lines::listing;
pub use utilities::utility;
