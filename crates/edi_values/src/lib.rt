//! The static rules on expressions, variables and arguments: what each becomes in the resolved program, and the first
//! construct in it that breaks a rule.
#![tactic(auto)]

mod chains;
mod constructors;
mod expressions;
mod factors;
mod names;
mod passing;
mod places;
mod uses;

pub use expressions::{arguments, expression, variable_place};
pub use passing::args_count;
pub use places::Located;
pub use uses::{Called, Use, use_of};
