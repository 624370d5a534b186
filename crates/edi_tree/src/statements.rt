//! Statements.

use crate::constants::Constant;
use crate::expressions::{Args, Expr, Variable};
use crate::names::Name;
use crate::sequence::Sequence;

/// `List = Statement { ";" Statement }`
#[derive(Drop)]
#[cycle(statements)]
pub struct List {
    pub first: Box<Statement>,
    pub more: Statements,
}

/// `{ ";" Statement }`
pub type Statements = Sequence<Statement>;

/// `Statement = "skip" | Assignment | Call | If | While | When | Cobegin`
#[derive(Drop)]
#[cycle(statements)]
pub enum Statement {
    Skip,
    Assignment(Assignment),
    Call(Call),
    If(If),
    While(While),
    When(When),
    Cobegin(Cobegin),
}

/// `If = "if" Conditions "end"`
pub type If = Conditions;

/// `While = "while" Conditions "end"`
pub type While = Conditions;

/// `When = "when" Conditions "end"`
#[derive(Drop)]
#[cycle(statements)]
pub struct When {
    /// The line of the `when`.
    pub line: u16,
    pub conditions: Conditions,
}

/// `Conditions = Expr "do" List { "else" Expr "do" List }`
#[derive(Drop)]
#[cycle(statements)]
pub struct Conditions {
    pub first: Condition,
    pub more: Else,
}

/// `Expr "do" List`
#[derive(Drop)]
#[cycle(statements)]
pub struct Condition {
    pub expr: Expr,
    /// The line of the `do`.
    pub line: u16,
    pub list: List,
}

/// `{ "else" Expr "do" List }`
pub type Else = Sequence<Condition>;

/// `Cobegin = "cobegin" Branch { "also" Branch } "end"`
#[derive(Drop)]
#[cycle(statements)]
pub struct Cobegin {
    /// The line of the `cobegin`.
    pub line: u16,
    pub first: Branch,
    pub more: Branches,
}

/// `Branch = Constant "do" List`
#[derive(Drop)]
#[cycle(statements)]
pub struct Branch {
    pub constant: Constant,
    /// The line of the `do`.
    pub line: u16,
    pub list: List,
    /// The line of the `also` or `end` behind the branch.
    pub end: u16,
}

/// `{ "also" Branch }`
pub type Branches = Sequence<Branch>;

/// `Assignment = Variable ":=" Expr`
#[derive(Drop)]
pub struct Assignment {
    pub variable: Variable,
    /// The line of the `:=`.
    pub line: u16,
    pub expr: Expr,
}

/// `Call = Name [ Args ]`
#[derive(Drop)]
pub struct Call {
    pub name: Name,
    pub args: Option<Args>,
}
