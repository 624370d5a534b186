//! A law of the listing. The function does nothing; its contract is the law.

ghost use Rattle.edi_utils.specs.Named.{EachInstructionIsNamed};

/// Each instruction of the machine has a name of its own in the listing, which begins with a capital letter: none is listed as a blank.
pub fn each_instruction_is_named()
    ensures law { EachInstructionIsNamed }
{}
