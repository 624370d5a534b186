//! The static rules: the resolved unit of a sound program, and the first construct of any other that breaks a rule. The
//! definitions stand in `specs/`: `resolve_tree` (`Programs`) goes through a tree construct by construct. The code here keeps
//! what is known at a place (`Known`) and judges the parts below expressions; the crates above judge the rest.
#![tactic(auto)]

mod constants;
mod faults;
mod fits;
mod headings;
mod known;
pub mod laws;
pub mod names;
pub mod nesting;
mod operands;
mod params;
mod parts;
mod places;
mod records;
mod splits;
mod tables;
mod types;
mod variables;

pub use constants::{Ordinal, const_list, constant};
pub use faults::{Judged, StaticFault, StaticKind};
pub use fits::{
    Rooted, as_function, as_variable, character, element_type, empty_set, is_indexed_by, single,
    takes_parts, takes_strings, variable_argument,
};
pub use headings::{
    Asked, Formal, asked_formals, asked_result, copy_asked, heading_with, kept_parameters,
    no_asked, parameters_of, plain_formal, procedure_formal, push_formal, same_asked, same_formal,
};
pub use known::{Known, add, boxed, fault, must, number, put};
pub use operands::{
    Linked, Typed, addition_operator, is_set, multiplication_operator, operated, relation_operator,
    signed, with_links,
};
pub use params::heading_parts;
pub use parts::{Parted, element_of, field_of};
pub use records::FieldNames;
pub use splits::Splits;
pub use types::type_decl;
pub use variables::var_list;
