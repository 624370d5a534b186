//! Blocks and units of the resolved tree.

use crate::lists::List;
use crate::statements::Acts;
use crate::types::{Numbers, TypeTable};

/// What a block belongs to.
#[derive(Clone, Copy)]
pub enum BlockKind {
    /// The program.
    Program,
    /// A procedure without result.
    Procedure,
    /// A function.
    Function,
    /// One branch of a `cobegin`.
    Branch,
}

/// A parameter of a block.
#[derive(Clone, Copy)]
pub enum Parameter {
    /// A value parameter of this type.
    Value(u32),
    /// A `var` parameter of this type.
    Var(u32),
    /// A procedure parameter, with the type of its result where it is a function.
    Formal(Option<u32>),
}

/// The parameters of a block in their order.
pub type Parameters = List<Parameter>;

/// A procedure, a function, the program, or a branch of a `cobegin`. Its variables are numbered from 0: the function
/// variable where there is a result, then the parameters, then the declared variables.
#[derive(Drop)]
pub struct Block {
    pub kind: BlockKind,
    /// The number of the block round this one; 0 for the program.
    pub up: u32,
    /// The type of a function's result.
    pub result: Option<u32>,
    pub parameters: Parameters,
    /// The types of the declared variables, those of the block's modules included.
    pub variables: Numbers,
    /// The words of memory that one instance of the block needs, at most 65,535.
    pub need: u32,
    /// The statements of the block's modules and then its own.
    pub body: Acts,
}

/// Blocks by number.
pub type Blocks = List<Block>;

/// Numbers of system calls, from 1 to 10.
pub type CallList = List<u8>;

/// A checked program. The program is block 0.
#[derive(Drop)]
pub struct Unit {
    pub types: TypeTable,
    pub blocks: Blocks,
    /// The number of the program's block.
    pub program: u32,
    /// The numbers of the system calls that the program's parameters are.
    pub calls: CallList,
}
