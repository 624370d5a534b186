//! The commands on texts that are not run: `compile FILE OUT`, `check FILE` and `explain FILE`; and `explore FILE`, which runs them with all
//! choices.

mod checking;
mod coding;
mod compiling;
mod explaining;
mod explore;

pub use checking::check;
pub use compiling::compile_file;
pub use explaining::explain_file;
pub use explore::explore_file;
