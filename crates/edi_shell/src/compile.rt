//! The command of the shell that compiles a file.

mod compiling;

pub use compiling::compile_file;
