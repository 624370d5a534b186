//! The parsing functions of statements. Where such a function succeeds, the predictive parser of the grammar passes its
//! part, and the tree has what stands there; where it fails, that parser stops at the same symbol.

mod assignments;
mod layers;
mod statements;

pub use statements::parse_list;
