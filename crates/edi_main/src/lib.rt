//! All that the program does: the one call `edison`, from the words of the command line to the status (`top`), and below it the
//! commands, a module for each kind, and the steps that they share.
#![tactic(auto)]

pub mod boot;
pub mod code;
pub mod disk;
pub mod run;
pub mod steps;
pub mod text;
mod top;

pub use edi_statuses::{RefusalKind, Status};
pub use top::edison;
