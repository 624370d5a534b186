//! From the bytes of a text, whole or in pieces, to its code, to its resolved unit, or to its first fault; and from a unit to its
//! code.
#![tactic(auto)]

pub mod codable;
mod intake;
pub mod laws;
mod passes;
mod texts;
mod units;

pub use edi_texts::{Pass, Refusal, RefusalKind};
pub use intake::Intake;
pub use texts::{compile, front};
pub use units::translate;
