//! The code of an Edison program for the abstract machine, as a definition: the instructions of each construct, in
//! `specs/Code.antt`, with their lengths in `specs/Lengths.antt`. The code generator, `edi_code`, writes this code. The program calls
//! nothing of this crate: the functions here only state laws.
#![tactic(auto)]

ghost use Rattle.edi_scheme.specs.Laws.{CodeIsLong, CodeIsSound, CodeIsWords, CodeStands};

/// In the code of every unit that fits, and whose records have fields, the code of each block stands where the block begins,
/// the code of each statement, expression and place in it one behind the other, each instruction whole and with operands that
/// it may have, and each jump and call leads to the construct or the block that it means.
pub fn code_stands()
    ensures law { CodeStands }
{}

/// The code of a unit is as long as its blocks together.
pub fn code_is_long()
    ensures law { CodeIsLong }
{}

/// The code of every unit that fits, and whose records have fields, has no fault where it is not longer than a code may be:
/// each instruction is one, each jump and call leads to an instruction that it may lead to, the program's entry stands at its
/// first word, and its parameters are at most ten different calls of the system.
pub fn code_is_sound()
    ensures law { CodeIsSound }
{}

/// The numbers in the code of every unit that fits, and whose records have fields, are words, where the unit's lines are below
/// 65,536 and the code has fewer than 2^32 words.
pub fn code_is_words()
    ensures law { CodeIsWords }
{}
