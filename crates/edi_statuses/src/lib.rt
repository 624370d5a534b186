//! How a command may end: the statuses with their numbers and lines, what each means, and the law that contents decide them.
#![tactic(auto)]

mod ended;
pub mod laws;
mod lines;
mod showing;
mod status;

pub use edi_texts::RefusalKind;
pub use ended::Ended;
pub use lines::Line;
pub use showing::{show_bytes, show_status};
pub use status::Status;
