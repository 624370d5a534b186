//! Declarations of types, and lists of variables.

use crate::constants::Constant;
use crate::names::{Name, Names};
use crate::sequence::Sequence;

/// `TypeDecl = Enum | Record | Array | Set`
#[derive(Drop)]
pub enum TypeDecl {
    Enum(Enum),
    Record(Record),
    Array(Array),
    Set(Set),
}

/// `Enum = "enum" Name "(" Name { "," Name } ")"`
#[derive(Drop)]
pub struct Enum {
    pub name: Name,
    pub first: Name,
    pub more: Names,
}

/// `Record = "record" Name "(" Group { ";" Group } ")"`
#[derive(Drop)]
pub struct Record {
    pub name: Name,
    pub first: Group,
    pub more: Groups,
}

/// `Group = Name { "," Name } ":" Name`
#[derive(Drop)]
pub struct Group {
    pub first: Name,
    pub more: Names,
    pub type_name: Name,
}

/// `{ ";" Group }`
pub type Groups = Sequence<Group>;

/// `Array = "array" Name "[" Constant ":" Constant "]" "(" Name ")"`
#[derive(Drop)]
pub struct Array {
    pub name: Name,
    /// The line of the `[`.
    pub line: u16,
    pub lower: Constant,
    pub upper: Constant,
    pub element: Name,
}

/// `Set = "set" Name "(" Name ")"`
#[derive(Drop)]
pub struct Set {
    pub name: Name,
    pub base: Name,
}

/// `VarList = "var" Group { ";" Group }`
#[derive(Drop)]
pub struct VarList {
    pub first: Group,
    pub more: Groups,
}
