//! `boot`: a session of the shell on the disk.

mod booting;
mod holding;

pub use booting::boot;
