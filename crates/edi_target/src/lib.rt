//! The instructions of the abstract machine, their words, and the code that a program is.
#![tactic(auto)]

mod code;
mod code_fault;
mod header;
pub mod laws;
mod op;
pub mod opcode;
mod read;
pub mod segments;
mod starts;
mod targets;
mod write;

ghost use Rattle.edi_target.specs.Reading.{ReadingIsDecoding, WordsAreReadAgain};

pub use code::Code;
pub use code_fault::CodeFault;
pub use op::Op;
pub use read::read_op;
pub use write::write_op;

/// The two forms of the encoding are one: an instruction is read from the words at an address exactly where its words stand
/// there and its operands are allowed.
pub fn reading_is_decoding()
    ensures law { ReadingIsDecoding }
{}

/// The words of an instruction give it again, whatever follows them.
pub fn words_are_read_again()
    ensures law { WordsAreReadAgain }
{}
