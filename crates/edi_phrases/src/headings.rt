//! The parsing functions of headings of procedures. Where such a function succeeds, the predictive parser of the grammar
//! passes its part, and the tree has what stands there; where it fails, that parser stops at the same symbol.

mod headings;

pub use headings::parse_head;
