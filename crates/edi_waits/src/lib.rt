//! Who waits where when a run stands still: each process that stands at a `when`, by its name, with the line of that `when` and those of the
//! calls that lead there. And who stands where when a run has ended in whatever way: each process that lives, by its name, with its frames.
#![tactic(auto)]

mod births;
mod ends;
mod places;
mod runs;
mod waits;

pub use births::{Branch, Names};
pub use ends::{Process, Stands, processes_at};
pub use places::line_before;
pub use runs::{run_named, stand_still};
pub use waits::Wait;
