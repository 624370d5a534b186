//! The names of a program.

use edi_lex::Text;

/// A block of the unit, and the names of its variables by their numbers.
#[derive(Drop)]
pub struct NamedBlock {
    /// The name of the program, procedure or function. A branch of a `cobegin` has none.
    pub name: Text,
    /// The function variable (`val` and its name) where there is a result, then the parameters, then the declared variables.
    pub variables: Vec<Text>,
}

/// The names of a program, by the numbers that its unit gives.
#[derive(Drop)]
pub struct Names {
    pub blocks: Vec<NamedBlock>,
    /// The names of the constants of each type; only `bool` and enumerations have any.
    pub constants: Vec<Vec<Text>>,
}
