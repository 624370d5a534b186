//! The words that blocks need.

ghost use Rattle.std.specs.Prelude.{◌≡◌, ◌≤◌, map, option_to_list, sum_by};
ghost use Rattle.edi_unit.specs.Types.{size};
ghost use Rattle.edi_unit.specs.View.{act_of, acts_of, block_of};
ghost use Rattle.edi_unit.specs.Need.{act_height, acts_height};
ghost use Rattle.edi_unit.specs.Need.{limited, slot_words, too_large, variable_words};
ghost use Rattle.edi_unit.specs.Need as spec;

use crate::heights::{arguments_words, place_words, sum, value_words};
use crate::statements::{Act, Acts};
use crate::types::TypeTable;
use crate::typing::type_words;
use crate::units::{Block, Parameter};

// The words that each instance of a block keeps besides its variables.
const LINK_WORDS: u32 = 5;

// The height of a statement.
#[cycle(needs)]
fn act_words(types: &TypeTable, blocks: &[Block], block: u32, act: &Act) -> u32
    ensures exact { result ≡ limited (act_height types.now (map block_of blocks.now) block (act_of act.now)) }
    ensures small { result ≤ too_large }
{
    match act {
        Act::Skip | Act::Halt(_) | Act::Cobegin(_, _) => 0,
        Act::Assign(place, value) => {
            let address = place_words(types, blocks, block, place);
            address.max(sum(1, value_words(types, blocks, block, value)))
        }
        Act::Call(_, arguments, _) => arguments_words(types, blocks, block, arguments),
        Act::If(clauses) | Act::While(clauses) | Act::When(clauses, _) => {
            let mut words: u32 = 0;
            for clause in clauses.items() {
                let condition = value_words(types, blocks, block, &clause.condition);
                let body = acts_words(types, blocks, block, &clause.body);
                words = words.max(condition.max(body));
            }
            words
        }
    }
}

// The height of a list of statements.
#[cycle(needs)]
fn acts_words(types: &TypeTable, blocks: &[Block], block: u32, acts: &Acts) -> u32
    ensures exact { result ≡ limited (acts_height types.now (map block_of blocks.now) block (acts_of acts.now)) }
    ensures small { result ≤ too_large }
{
    let mut words: u32 = 0;
    for act in acts.items() {
        words = words.max(act_words(types, blocks, block, act));
    }
    words
}

// The words of a parameter.
fn parameter_words(types: &TypeTable, parameter: Parameter) -> u32
    ensures exact { result ≡ slot_words types.now parameter }
    ensures small { result ≤ too_large }
{
    match parameter {
        Parameter::Value(of) => type_words(types, of),
        Parameter::Var(_) => 1,
        Parameter::Formal(_) => 3,
    }
}

// The words of a result of this type, if there is one.
fn returned_words(types: &TypeTable, of: Option<u32>) -> u32
    ensures exact { result ≡ sum_by (size types.now) (option_to_list of) }
    ensures small { result ≤ too_large }
{
    match of {
        Some(of) => type_words(types, of),
        None => 0,
    }
}

// The words of a block's result, parameters and declared variables.
fn block_words(types: &TypeTable, block: &Block) -> u32
    ensures exact { result ≡ limited (variable_words types.now (block_of block.now)) }
    ensures small { result ≤ too_large }
{
    let mut parameters: u32 = 0;
    for parameter in block.parameters.items() {
        parameters = sum(parameters, parameter_words(types, *parameter));
    }
    let mut variables: u32 = 0;
    for variable in block.variables.items() {
        variables = sum(variables, type_words(types, *variable));
    }
    sum(
        returned_words(types, block.result),
        sum(parameters, variables),
    )
}

/// The words of memory that one instance of block `block` needs: 5, those of its result, its parameters and its variables,
/// and the greatest number that its statements take above them. A need above 65,535 is given as 65,536.
pub fn need(types: &TypeTable, blocks: &[Block], block: u32) -> u32
    ensures exact { result ≡ limited (spec.need types.now (map block_of blocks.now) block) }
{
    match blocks.get(block as usize) {
        Some(found) => {
            let frame = sum(LINK_WORDS, block_words(types, found));
            sum(frame, acts_words(types, blocks, block, &found.body))
        }
        None => LINK_WORDS,
    }
}
