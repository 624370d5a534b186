//! Expressions of the resolved tree: each name is the number of a type, a block or a variable.

use crate::lists::List;

/// The operators between two operands.
#[derive(Clone, Copy)]
pub enum Operator {
    /// `=`
    Equal,
    /// `<>`
    NotEqual,
    /// `<`
    Less,
    /// `<=`
    LessOrEqual,
    /// `>`
    Greater,
    /// `>=`
    GreaterOrEqual,
    /// `in`
    In,
    /// `+`: a sum, or the union of two sets
    Plus,
    /// `-`: a difference, of two sets too
    Minus,
    /// `or`
    Or,
    /// `*`: a product, or the intersection of two sets
    Times,
    /// `div`
    Div,
    /// `mod`
    Mod,
    /// `and`
    And,
}

/// A procedure or function that is called or passed on. `levels` counts the steps from a block to the block round it.
#[derive(Clone, Copy)]
pub enum Callee {
    /// The block of this number, which is declared in the block that is `levels` steps out.
    Block { levels: u32, block: u32 },
    /// The procedure parameter that is this variable of the block `levels` steps out.
    Formal { levels: u32, variable: u32 },
}

/// An expression. A line is that of the symbol at which its failure is told.
#[derive(Drop)]
#[cycle(values)]
pub enum Value {
    /// The value of type `of` with this ordinal.
    Constant {
        of: u32,
        ordinal: i16,
    },
    /// The value of a variable.
    Load(Place),
    /// `not`
    Not(Box<Value>),
    /// A leading `-`, with its line.
    Sign(Box<Value>, u16),
    /// A first operand, and the operators with their right operands, which apply from the left.
    Chain(Box<Value>, Links),
    /// A record, an array or a set of type `of` with these fields, elements or members.
    Make {
        of: u32,
        parts: Values,
        line: u16,
    },
    /// The value of the elementary type `of` with the ordinal of this value.
    Convert {
        of: u32,
        value: Box<Value>,
        line: u16,
    },
    /// The result of a function, with the line of the calling name.
    Apply(Callee, Arguments, u16),
}

/// A list of expressions.
pub type Values = List<Value>;

/// An operator with its right operand and its line.
#[derive(Drop)]
#[cycle(values)]
pub struct Link {
    pub operator: Operator,
    pub right: Value,
    pub line: u16,
}

/// The operators of one chain, from left to right.
pub type Links = List<Link>;

/// One step from a variable to a part of it.
#[derive(Drop)]
#[cycle(values)]
pub enum Part {
    /// The field of this number, counted from 0.
    Field(u32),
    /// The element at this index, with the line of the `[`.
    Index(Box<Value>, u16),
}

/// The steps from a variable to a part of it.
pub type Parts = List<Part>;

/// A variable, or a part of it: `variable` of the block that is `levels` steps out, and the steps from there.
#[derive(Drop)]
#[cycle(values)]
pub struct Place {
    pub levels: u32,
    pub variable: u32,
    pub parts: Parts,
}

/// An argument, for a parameter of its kind.
#[derive(Drop)]
#[cycle(values)]
pub enum Argument {
    /// For a value parameter.
    Value(Value),
    /// For a `var` parameter.
    Var(Place),
    /// For a procedure parameter.
    Formal(Callee),
}

/// The arguments of a call, in the order of the parameters.
pub type Arguments = List<Argument>;
