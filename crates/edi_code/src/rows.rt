//! Constants in a row.

ghost use Rattle.std.specs.Prelude.{◌≡◌, IfOk, option_map};
ghost use Rattle.edi_unit.specs.View.{expressions_of};
ghost use Rattle.edi_scheme.specs.Pieces.{constant_words};
ghost use Rattle.edi_code.specs.Emits.{kept_words};

use edi_unit::{Value, Values};
use std::alloc::{AllocError, Global};

// The words of expressions that are all constants, or `None` where one of them is not.
pub(crate) fn constant_row(alloc: Global, values: &Values) -> Result<Option<Vec<u16>>, AllocError>
    ensures exact { IfOk result (λ row. kept_words row ≡ constant_words (expressions_of values.now)) }
{
    let mut words: Vec<u16> = Vec::new(alloc);
    for value in values.items() {
        match value {
            Value::Constant { ordinal, .. } => words.push(ordinal.cast_unsigned())?,
            _ => return Ok(None),
        }
    }
    Ok(Some(words))
}
