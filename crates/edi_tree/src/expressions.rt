//! Expressions.

use crate::names::{Chars, Name};
use crate::sequence::Sequence;

/// `Expr = Simple [ Relation Simple ]`
#[derive(Drop)]
#[cycle(expressions)]
pub struct Expr {
    pub left: Simple,
    pub comparison: Option<Comparison>,
}

/// `Relation Simple`
#[derive(Drop)]
#[cycle(expressions)]
pub struct Comparison {
    pub relation: Relation,
    /// The line of the relation.
    pub line: u16,
    pub right: Simple,
}

/// `Relation = "=" | "<>" | "<" | "<=" | ">" | ">=" | "in"`
#[derive(Clone, Copy, PartialEq, Eq, Debug)]
pub enum Relation {
    Equal,
    NotEqual,
    Less,
    AtMost,
    Greater,
    AtLeast,
    In,
}

/// `{ Expr }`, each behind a comma
pub type Exprs = Sequence<Expr>;

/// `Simple = [ "+" | "-" ] Term { ( "+" | "-" | "or" ) Term }`
#[derive(Drop)]
#[cycle(expressions)]
pub struct Simple {
    pub sign: Option<Sign>,
    pub first: Term,
    pub more: Addends,
}

/// A leading `+` or `-`, with its line.
#[derive(Clone, Copy, PartialEq, Eq, Debug)]
pub enum Sign {
    Plus(u16),
    Minus(u16),
}

/// `( "+" | "-" | "or" ) Term`
#[derive(Drop)]
#[cycle(expressions)]
pub struct Addend {
    pub operator: Addition,
    /// The line of the operator.
    pub line: u16,
    pub term: Term,
}

/// `"+" | "-" | "or"`
#[derive(Clone, Copy, PartialEq, Eq, Debug)]
pub enum Addition {
    Plus,
    Minus,
    Or,
}

/// `{ ( "+" | "-" | "or" ) Term }`
pub type Addends = Sequence<Addend>;

/// `Term = Factor { ( "*" | "div" | "mod" | "and" ) Factor }`
#[derive(Drop)]
#[cycle(expressions)]
pub struct Term {
    pub first: Factor,
    pub more: Multipliers,
}

/// `( "*" | "div" | "mod" | "and" ) Factor`
#[derive(Drop)]
#[cycle(expressions)]
pub struct Multiplier {
    pub operator: Multiplication,
    /// The line of the operator.
    pub line: u16,
    pub factor: Factor,
}

/// `"*" | "div" | "mod" | "and"`
#[derive(Clone, Copy, PartialEq, Eq, Debug)]
pub enum Multiplication {
    Star,
    Div,
    Mod,
    And,
}

/// `{ ( "*" | "div" | "mod" | "and" ) Factor }`
pub type Multipliers = Sequence<Multiplier>;

/// `Factor = Numeral | String | "not" Factor | "(" Expr ")" | Name Args | Variable`
#[derive(Drop)]
#[cycle(expressions)]
pub enum Factor {
    Numeral(i16),
    String(Chars),
    /// `not`, with its line.
    Not(u16, Box<Factor>),
    Parenthesized(Box<Expr>),
    Call(Name, Args),
    Variable(Variable),
}

/// `Args = "(" Expr { "," Expr } ")"`
#[derive(Drop)]
#[cycle(expressions)]
pub struct Args {
    pub first: Box<Expr>,
    pub more: Exprs,
}

/// `Variable = ( Name | "val" Name ) { "." Name | "[" Expr "]" }`
#[derive(Drop)]
#[cycle(expressions)]
pub struct Variable {
    pub root: Root,
    pub selectors: Selectors,
}

/// `Name | "val" Name`
#[derive(Drop)]
pub enum Root {
    Name(Name),
    Val(Name),
}

/// `"." Name | "[" Expr "]"`, each with the line of its first symbol
#[derive(Drop)]
#[cycle(expressions)]
pub enum Selector {
    Field(u16, Name),
    Index(u16, Box<Expr>),
}

/// `{ "." Name | "[" Expr "]" }`
pub type Selectors = Sequence<Selector>;
