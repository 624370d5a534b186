//! What a checked program is: its types by number, its blocks as trees in which each name is resolved, and the words of
//! memory that a type, a statement and a block take.
#![tactic(auto)]

mod expressions;
mod heights;
pub mod laws;
mod lists;
mod needs;
mod statements;
mod types;
mod typing;
mod units;

pub use expressions::{
    Argument, Arguments, Callee, Link, Links, Operator, Part, Parts, Place, Value, Values,
};
pub use heights::TOO_LARGE;
pub use lists::List;
pub use needs::need;
pub use statements::{Act, Acts, Clause, Clauses};
pub use types::{Numbers, Shape, TypeTable};
pub use typing::{
    BOOL, CHAR, INT, callee_result, expression_type, links_type, operator_type, outer, part_type,
    place_type, slot, type_words,
};
pub use units::{Block, BlockKind, Blocks, CallList, Parameter, Parameters, Unit};
