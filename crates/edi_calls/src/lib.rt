//! The system that a program sees: its files, its terminal and printer, and its ten calls. What language and machine
//! share: process names, the ready list, choices, outcomes, and a system with its past.
#![tactic(auto)]

mod blocks;
pub mod call_number;
mod calls;
mod ends;
mod kinds;
pub mod laws;
mod titles;

pub use blocks::blocks_of;
pub use calls::{Calls, words_of};
pub use ends::{CallEnd, Outside};
pub use kinds::{Cause, FileKind};
pub use titles::is_title;
