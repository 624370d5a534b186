//! The shell: each of its commands with all lines that it takes, and whole sessions, over any object that it works on.
#![tactic(auto)]

pub mod commands;
pub mod compile;
pub mod edit;
pub mod sessions;

pub use edi_session::SessionEnd;
pub use sessions::session;
