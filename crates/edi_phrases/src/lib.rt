//! The parsing functions of names, constants and types, and of symbols one by one. Where such a function succeeds, the
//! predictive parser of the grammar passes its part, and the tree has what stands there; where it fails, that parser stops
//! at the same symbol.
#![tactic(auto)]

mod constants;
pub mod expressions;
pub mod headings;
pub mod kind;
mod macros;
mod names;
mod stop;
mod types;

pub use constants::{eat_char, parse_const_list, parse_constant};
pub use names::{at_name, eat_numeral, parse_group, parse_groups, parse_name, parse_names};
pub use stop::{LEVELS, Parsed, Stop, at, eat, expect, kind_of, open};
pub use types::{at_type_decl, parse_type_decl, parse_var_list};
