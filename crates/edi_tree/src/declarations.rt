//! Declarations, procedures and modules.

use crate::constants::ConstList;
use crate::headings::Heading;
use crate::sequence::Sequence;
use crate::statements::List;
use crate::types::{TypeDecl, VarList};

/// `Procedure = Heading { Declaration } "begin" List "end"`
#[derive(Drop)]
#[cycle(declarations)]
pub struct Procedure {
    pub heading: Heading,
    pub declarations: Declarations,
    pub list: List,
    /// The line of the `end`.
    pub end: u16,
}

/// `Pre = "pre" Heading`
pub type Pre = Heading;

/// `Post = "post" Procedure`
pub type Post = Procedure;

/// `Item = ConstList | TypeDecl | VarList | Procedure | Pre | Post`
#[derive(Drop)]
#[cycle(declarations)]
pub enum Item {
    ConstList(ConstList),
    TypeDecl(TypeDecl),
    VarList(VarList),
    Procedure(Procedure),
    Pre(Pre),
    Post(Post),
}

/// `Module = "module" { [ "*" ] Item | Module } "begin" List "end"`
#[derive(Drop)]
#[cycle(declarations)]
pub struct Module {
    pub members: Members,
    pub list: List,
}

/// `[ "*" ] Item | Module`
#[derive(Drop)]
#[cycle(declarations)]
pub enum Member {
    Item(Item),
    /// An item behind `*`.
    Exported(Item),
    Module(Module),
}

/// `{ [ "*" ] Item | Module }`
pub type Members = Sequence<Member>;

/// `Declaration = Item | Module`
#[derive(Drop)]
#[cycle(declarations)]
pub enum Declaration {
    Item(Item),
    Module(Module),
}

/// `{ Declaration }`
pub type Declarations = Sequence<Declaration>;
