//! Adapters over the host's files and streams. They tell no contents.

pub(crate) mod drive;
pub(crate) mod files;
pub(crate) mod sink;
pub(crate) mod source;
pub(crate) mod transfer;
