//! Watching a program: points, the log of what variables hold at arrivals, and that this log is the one of the program's meaning.
//! What the log is to be is `log_of` (`specs/stops/Stops`).
#![tactic(auto)]

mod answer;
pub mod laws;
mod lines;
mod log;
mod near;
mod reading;
mod running;

pub use answer::{PointFault, Points};
pub use log::Log;
pub use reading::points;
pub use running::watch;
