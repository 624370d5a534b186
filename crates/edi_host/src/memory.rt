pub(crate) mod drive;
pub(crate) mod files;
pub(crate) mod sink;
pub(crate) mod source;
