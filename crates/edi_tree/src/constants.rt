//! Constants.

use crate::names::{Char, Name};
use crate::sequence::Sequence;

/// `Constant = Numeral | Char | Name [ "(" Numeral ")" ]`
#[derive(Drop)]
pub enum Constant {
    Numeral(i16),
    Char(Char),
    Name(Name, Option<i16>),
}

/// `ConstDecl = Name "=" Constant`
#[derive(Drop)]
pub struct ConstDecl {
    pub name: Name,
    pub constant: Constant,
}

/// `{ ";" ConstDecl }`
pub type ConstDecls = Sequence<ConstDecl>;

/// `ConstList = "const" ConstDecl { ";" ConstDecl }`
#[derive(Drop)]
pub struct ConstList {
    pub first: ConstDecl,
    pub more: ConstDecls,
}
