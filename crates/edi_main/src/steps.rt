//! The steps that commands share: fetching a file of the host, loading a code file, reading the choices of a run, fetching and reading both
//! for a program, keeping the record of the choices, showing what was made, stopping before anything is done.

mod fetching;
mod loading;
mod opening;
mod reading;
mod recording;
mod showing;
mod stopping;

pub use fetching::fetch;
pub use loading::load_code;
pub use opening::{Opened, open_program};
pub use reading::read_from;
pub use recording::end_with_record;
pub use showing::show_made;
pub use stopping::{mount_status, stopped};
