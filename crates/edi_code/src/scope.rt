//! What the code of a construct depends on besides the construct.

use crate::stored::Stored;
use edi_unit::{Block, TypeTable};
use std::alloc::{AllocError, Global};

/// That a code was appended. The only error is want of memory.
pub(crate) type Appended = Result<(), AllocError>;

/// The address behind a code that was appended. The only error is want of memory.
pub(crate) type Behind = Result<u32, AllocError>;

/// A block in its unit, and the memory for its code.
#[derive(Clone, Copy)]
pub struct Scope<'a> {
    pub alloc: Global,
    pub types: &'a TypeTable,
    pub blocks: &'a [Block],
    /// The address where the code of each block begins.
    pub entries: &'a [u32],
    /// Where the variables of each block stand. Those of a block that has no row here are added up.
    pub variables: &'a [Vec<Stored>],
    /// Where the fields of each type stand. Those of a type that has no row here are added up.
    pub fields: &'a [Vec<Stored>],
    /// The number of the block.
    pub block: u32,
}

/// What the clauses of a statement belong to.
#[derive(Clone, Copy)]
pub(crate) enum Closing {
    /// An `if`.
    Once,
    /// A `while`.
    Repeated,
    /// A `when`.
    Released,
}
