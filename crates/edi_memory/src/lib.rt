//! A system in memory, for tests and for programs that keep no files.
#![tactic(auto)]

mod faults;
mod memory;
mod slots;
mod state;
mod steps;
mod stored;
mod titles;

pub use memory::MemoryCalls;
pub use stored::StoredFile;
