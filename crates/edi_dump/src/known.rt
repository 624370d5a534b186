//! What is known of a program.

use edi_sights::Names;
use edi_unit::Unit;

/// The unit of a text, and the names that the text gives to its blocks, their variables and the constants of its types.
#[derive(Drop)]
pub struct Known {
    pub unit: Unit,
    pub names: Names,
}
