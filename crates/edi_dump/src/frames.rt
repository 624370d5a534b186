//! The frames of a known program: the variables of each by their names, with their values.

ghost use Rattle.std.specs.Prelude.{◌≡◌, ◌++◌, IfOk, OnOk, map, option_to_list};
ghost use Rattle.edi_unit.specs.View.{block_of};
ghost use Rattle.edi_unit.specs.Need as need;
ghost use Rattle.edi_unit.specs.declared.units.Parameter.TheVariants as slot;
ghost use Rattle.edi_sights.specs.named.Naming.{named_at};
ghost use Rattle.edi_sights.specs.named.Views.{named_of};
ghost use Rattle.edi_dump.specs.Frames as spec;
ghost use Rattle.edi_dump.specs.Views.{program_of};

use crate::known::Known;
use crate::values::{behind, put_value, short, size_of, word_at};
use edi_lex::Text;
use edi_sights::NamedBlock;
use edi_unit::{Block, Parameter, TypeTable};
use std::alloc::{AllocError, Global};

/// The words of the address that a `var` parameter keeps.
const ADDRESS_WORDS: u32 = 1;
/// The words of a procedure parameter.
const PROCEDURE_WORDS: u32 = 3;
/// The words of a frame before its variables.
const LINK_WORDS: usize = 5;

// Puts a variable, which stands at the front of the words. The only error is that memory ran out, as everywhere here.
fn put_variable(
    out: &mut Vec<u8>,
    alloc: Global,
    known: &Known,
    memory: &[u16],
    variable: Parameter,
    words: &[u16],
) -> Result<(), AllocError>
    ensures exact { OnOk result (out.new.items ≡ out.old.items ++ spec.variable_text (program_of known.now) memory.now variable words.now) }
{
    match variable {
        Parameter::Value(t) => put_value(out, alloc, known, t, words),
        Parameter::Var(t) => {
            let means = usize::from(word_at(words, 0));
            put_value(out, alloc, known, t, behind(memory, means))
        }
        Parameter::Formal(_) => {
            out.extend_from_slice(b"proc")?;
            Ok(())
        }
    }
}

// The words of a variable.
fn slot_words(types: &TypeTable, variable: Parameter) -> u32
    ensures exact { result ≡ need.slot_words types.now variable }
{
    match variable {
        Parameter::Value(t) => size_of(types, t),
        Parameter::Var(_) => ADDRESS_WORDS,
        Parameter::Formal(_) => PROCEDURE_WORDS,
    }
}

// Puts the line of a variable of this name.
fn put_line(
    out: &mut Vec<u8>,
    alloc: Global,
    known: &Known,
    memory: &[u16],
    name: &[u8],
    variable: Parameter,
    words: &[u16],
) -> Result<(), AllocError>
    ensures exact { OnOk result (out.new.items ≡ out.old.items ++ spec.variable_line (program_of known.now) memory.now name.now variable words.now) }
{
    out.extend_from_slice(b"    ")?;
    out.extend_from_slice(short(name))?;
    out.extend_from_slice(b" = ")?;
    put_variable(out, alloc, known, memory, variable, words)?;
    out.extend_from_slice(b"\n")?;
    Ok(())
}

// Puts the lines of variables with these names, which stand one behind another at the front of the words.
fn put_variables(
    out: &mut Vec<u8>,
    alloc: Global,
    known: &Known,
    memory: &[u16],
    names: &[Text],
    variables: &[Parameter],
    words: &[u16],
) -> Result<(), AllocError>
    ensures exact { OnOk result (out.new.items ≡ out.old.items ++
        spec.variables_text (program_of known.now) memory.now names.now variables.now words.now) }
{
    let mut left = variables;
    let mut rest = words;
    for name in names {
        let Some((variable, more)) = left.split_first() else {
            return Ok(());
        };
        put_line(out, alloc, known, memory, name.as_slice(), *variable, rest)?;
        rest = behind(rest, slot_words(&known.unit.types, *variable) as usize);
        left = more;
    }
    Ok(())
}

// The function variable, where there is a result.
fn result_slot(alloc: Global, result_type: Option<u32>) -> Result<Vec<Parameter>, AllocError>
    ensures exact { IfOk result (λ slots. slots.items ≡ map slot.Value (option_to_list result_type)) }
{
    let mut slots = Vec::new(alloc);
    if let Some(t) = result_type {
        slots.push(Parameter::Value(t))?;
    }
    Ok(slots)
}

// The variables of a block.
fn slots_of(alloc: Global, block: &Block) -> Result<Vec<Parameter>, AllocError>
    ensures exact { IfOk result (λ slots. slots.items ≡ need.slots (block_of block.now)) }
{
    let mut slots = result_slot(alloc, block.result)?;
    slots.extend_from_slice(block.parameters.items())?;
    for t in block.variables.items() {
        slots.push(Parameter::Value(*t))?;
    }
    Ok(slots)
}

// Those of the block of this number; a block that is not there has none.
fn slots_at(alloc: Global, blocks: &[Block], block: usize) -> Result<Vec<Parameter>, AllocError>
    ensures exact { IfOk result (λ slots. slots.items ≡ need.slots (need.block_at (map block_of blocks.now) block)) }
{
    match blocks.get(block) {
        Some(known) => slots_of(alloc, known),
        None => Ok(Vec::new(alloc)),
    }
}

// Puts the line of a block of this name; a branch of a `cobegin` has none.
fn put_name(out: &mut Vec<u8>, name: &[u8]) -> Result<(), AllocError>
    ensures exact { OnOk result (out.new.items ≡ out.old.items ++ spec.name_line name.now) }
{
    if name.is_empty() {
        return Ok(());
    }
    out.extend_from_slice(b"  ")?;
    out.extend_from_slice(short(name))?;
    out.extend_from_slice(b"\n")?;
    Ok(())
}

// Puts the lines of a frame at `base` of the block of this number, which has these names.
fn put_block(
    out: &mut Vec<u8>,
    alloc: Global,
    known: &Known,
    memory: &[u16],
    block: usize,
    base: u32,
    named: &NamedBlock,
) -> Result<(), AllocError>
    ensures exact { OnOk result (out.new.items ≡ out.old.items ++
        spec.block_frame (program_of known.now) memory.now block base (named_of named.now)) }
{
    put_name(out, named.name.as_slice())?;
    let slots = slots_at(alloc, known.unit.blocks.items(), block)?;
    let words = behind(memory, base as usize + LINK_WORDS);
    put_variables(
        out,
        alloc,
        known,
        memory,
        named.variables.as_slice(),
        slots.as_slice(),
        words,
    )
}

/// Puts the lines of a frame at `base` of the block of this number. One that has no names is told by nothing.
pub(crate) fn put_frame(
    out: &mut Vec<u8>,
    alloc: Global,
    known: &Known,
    memory: &[u16],
    block: usize,
    base: u32,
) -> Result<(), AllocError>
    ensures exact { OnOk result (out.new.items ≡ out.old.items ++
        spec.block_frame (program_of known.now) memory.now block base (named_at (program_of known.now).names.blocks block)) }
{
    match known.names.blocks.get(block) {
        Some(named) => put_block(out, alloc, known, memory, block, base, named),
        None => Ok(()),
    }
}
