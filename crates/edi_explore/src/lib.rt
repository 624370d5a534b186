//! All that choices bring about: a search through every state between two stints.
#![tactic(auto)]

mod back;
mod cut;
mod ends;
mod expand;
mod finding;
mod moved;
mod offline;
mod ranks;
mod record;
mod search;
mod states;
mod step;
mod watch;

pub use ends::{Found, Limits, Report, Verdict};
pub use search::explore;
pub use watch::Watcher;
