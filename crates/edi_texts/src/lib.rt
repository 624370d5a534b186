//! What a text is: a text with a first fault, which comes from one of three passes and has a kind and a line; or one that is
//! accepted and has a resolved unit.
#![tactic(auto)]

mod cause;
mod kind;
pub mod laws;
mod refusal;

pub use cause::cause_text;
pub use kind::RefusalKind;
pub use refusal::{Pass, Refusal};
