//! What the shell calls, in the words of the definition of a session, and a system as such an object.

mod calls;
mod on_system;

pub use calls::{OrEnd, ShellCalls};
