//! The outside of a program: files, a drive, a source and a sink of bytes. Each is a trait that says what
//! its object holds and how often it has failed, with forms in memory and adapters over the real things.
#![tactic(auto)]

mod drive;
mod files;
mod host;
mod memory;
mod plan;
mod sink;
mod source;
mod steady;

pub use drive::{Drive, DriveEnd, ResizeEnd};
pub use files::{FetchEnd, Files, KeepEnd};
pub use host::drive::{DRIVE_FILE, HostDrive};
pub use host::files::HostFiles;
pub use host::sink::{HostSink, PRINTER_FILE};
pub use host::source::HostSource;
pub use memory::drive::MemoryDrive;
pub use memory::files::MemoryFiles;
pub use memory::sink::MemorySink;
pub use memory::source::MemorySource;
pub use sink::{Put, PutEnd, Sink};
pub use source::{Next, Source};
pub use steady::drive::SteadyDrive;
pub use steady::files::SteadyFiles;
pub use steady::sink::SteadySink;
pub use steady::source::SteadySource;
