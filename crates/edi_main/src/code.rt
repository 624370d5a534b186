//! The command on a code that is not run: `list CODEFILE`.

mod lists;
mod loading;

pub use lists::list;
