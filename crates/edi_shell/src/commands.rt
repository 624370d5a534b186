//! The commands of the shell, over any object that it works on.

mod catalogue;
mod entering;
mod executing;
mod files;
mod reading;
mod saying;
mod taking;

pub use catalogue::list_files;
pub use entering::enter_file;
pub use executing::execute_file;
pub use files::{delete_file, protect_file, rename_file, store_file};
pub use reading::{copy_file, open, print_file, read_file, show_file};
pub use saying::say;
pub use taking::{LIMIT, LineBytes, next_of_line, take_command};
