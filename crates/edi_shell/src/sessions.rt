//! Sessions of the shell, over any object that it works on: what a command does, a command line from its prompt on, and the session.

mod acting;
mod commanding;
mod holding;
mod on_system;

pub use commanding::ends_by_fault;
pub use holding::hold;
pub use on_system::session;
