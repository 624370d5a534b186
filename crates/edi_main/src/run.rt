//! The commands that run a program: `run` and `replay` that of a text, `exec` that of a code file, `demo` that of the demonstration, `watch`
//! that of a text with a log; and `walk`, that of a text with a choice at every step. `run`, `replay`, `exec` and `demo` may keep an account of the run.

mod accounts;
mod code;
mod demonstration;
mod dumping;
mod dumps;
mod files;
mod logging;
mod texts;
mod timelines;
mod timing;
mod walking;
mod watching;

pub use demonstration::demonstrate;
pub use files::{Form, run_file, run_file_with};
pub use walking::walk_file;
pub use watching::watch_file;
