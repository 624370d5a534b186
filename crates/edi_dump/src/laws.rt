//! What the text of words is, and whose code an address is in.

ghost use Rattle.edi_dump.specs.Laws.{AddressesTellBlocks};
ghost use Rattle.edi_dump.specs.values.Laws.{TextsAreOfValues};

/// The text that is read off words is the text of the value that they hold, whatever stands behind them.
pub fn texts_are_of_values()
    ensures law { TextsAreOfValues }
{}

/// An address from where a block begins in the code of a unit that fits up to its last instruction tells that block.
pub fn addresses_tell_blocks()
    ensures law { AddressesTellBlocks }
{}
