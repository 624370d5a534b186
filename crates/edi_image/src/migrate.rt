//! Making an image of version 2 of one of version 1, which is only read.

mod building;
pub mod laws;
mod migrating;
mod old;

pub use crate::MountFault;
pub use migrating::{MigrateEnd, migrate};
