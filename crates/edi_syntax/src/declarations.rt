//! The parsing functions of declarations, procedures, modules and the declarations in front of a program. Where such a
//! function succeeds, the predictive parser of the grammar passes its part, and the tree has what stands there; where it
//! fails, that parser stops at the same symbol.

mod declarations;
mod fronts;
mod globals;
mod items;
mod layers;

pub use declarations::parse_procedure;
pub use globals::parse_globals;
