//! Headings of procedures.

use crate::names::Name;
use crate::sequence::Sequence;
use crate::types::Group;

/// `Heading = "proc" Name [ "(" Param { ";" Param } ")" ] [ ":" Name ]`
#[derive(Drop)]
#[cycle(headings)]
pub struct Heading {
    pub name: Name,
    /// Empty where there are no parentheses.
    pub params: Params,
    pub result: Option<Name>,
}

/// `Param = [ "var" ] Group | Heading`
#[derive(Drop)]
#[cycle(headings)]
pub enum Param {
    /// A group without `var`.
    Value(Group),
    /// A group with `var`.
    Var(Group),
    Heading(Heading),
}

/// `[ Param { ";" Param } ]`
pub type Params = Sequence<Param>;
