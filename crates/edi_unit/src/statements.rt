//! Statements of the resolved tree.

use crate::expressions::{Arguments, Callee, Place, Value};
use crate::lists::List;
use crate::types::Numbers;

/// A statement. A line is that of the symbol at which its failure is told.
#[derive(Drop)]
#[cycle(acts)]
pub enum Act {
    /// `skip`
    Skip,
    /// An assignment to a variable.
    Assign(Place, Value),
    /// A call of a procedure, with the line of the calling name.
    Call(Callee, Arguments, u16),
    /// A call of the standard procedure `halt`.
    Halt(u16),
    /// `if`
    If(Clauses),
    /// `while`
    While(Clauses),
    /// `when`
    When(Clauses, u16),
    /// `cobegin`, with the numbers of its branches' blocks.
    Cobegin(Numbers, u16),
}

/// A list of statements.
pub type Acts = List<Act>;

/// A condition with the statements that stand behind its `do`.
#[derive(Drop)]
#[cycle(acts)]
pub struct Clause {
    pub condition: Value,
    pub body: Acts,
}

/// The conditions of one statement, in the order in which they are tried.
pub type Clauses = List<Clause>;
