//! The text of a program, walked, watched and explored over the objects of the host.
#![tactic(auto)]

pub mod explore;
pub mod walk;
pub mod watch;
