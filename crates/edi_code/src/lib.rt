//! The code generator: from a checked program to its code for the abstract machine. The code of each construct is defined in
//! `edi_scheme`.
#![tactic(auto)]

mod expressions;
mod instructions;
mod jumps;
mod lengths;
mod mapped;
mod pieces;
mod program;
mod quiet;
mod rows;
mod scope;
mod statement_lengths;
mod statements;
mod stored;

pub use mapped::{Mapped, generate_mapped};
pub use program::{code_words, generate};
