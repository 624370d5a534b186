//! The parsing functions of expressions. Where such a function succeeds, the predictive parser of the grammar passes its
//! part, and the tree has what stands there; where it fails, that parser stops at the same symbol.

mod expressions;
mod layers;

pub use expressions::{parse_args, parse_expr, parse_selectors};
