//! Scopes: which entity a name means at a place of the text.
#![tactic(auto)]

mod declarations;
mod entity;
mod scopes;

pub use entity::{Entity, ScopeFault};
pub use scopes::Scopes;
