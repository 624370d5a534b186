//! A run of code with its timeline. What the stints of a run of code are is `stints_of_code` (`specs/Ran`).
#![tactic(auto)]

mod counting;
mod heard;
pub mod laws;
mod leaving;
mod lent;
pub mod on;
mod places;
mod running;
mod seats;
mod unheard;

pub use heard::Heard;
pub use running::timed;
