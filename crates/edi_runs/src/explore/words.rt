//! The words of the lines, put after bytes.

ghost use Rattle.std.specs.Prelude.{◌≡◌, ◌++◌, OnOk, codes, decimal};
ghost use Rattle.edi_runs.specs.explore.Lines as spec;

use edi_timeline::words::put_number;
use std::alloc::AllocError;

// So many choices are shown at most.
const MOST_SHOWN: usize = 100;

// Puts the end of the plural of a word.
fn put_plural(out: &mut Vec<u8>, number: u64) -> Result<(), AllocError>
    ensures exact { OnOk result (out.new.items ≡ out.old.items ++ spec.plural number) }
{
    if number == 1 {
        return Ok(());
    }
    out.extend_from_slice(b"s")?;
    Ok(())
}

// Puts `N turns`.
pub(crate) fn put_turns(out: &mut Vec<u8>, turns: u64) -> Result<(), AllocError>
    ensures exact { OnOk result (out.new.items ≡ out.old.items ++ spec.turns_text turns) }
{
    put_number(out, turns)?;
    out.extend_from_slice(b" turn")?;
    put_plural(out, turns)
}

// Puts `N moves`.
pub(crate) fn put_moves(out: &mut Vec<u8>, moves: u64) -> Result<(), AllocError>
    ensures exact { OnOk result (out.new.items ≡ out.old.items ++ spec.moves_text moves) }
{
    put_number(out, moves)?;
    out.extend_from_slice(b" move")?;
    put_plural(out, moves)
}

// Puts `N states`.
pub(crate) fn put_states(out: &mut Vec<u8>, states: u64) -> Result<(), AllocError>
    ensures exact { OnOk result (out.new.items ≡ out.old.items ++ spec.states_text states) }
{
    put_number(out, states)?;
    out.extend_from_slice(b" state")?;
    put_plural(out, states)
}

// Puts a blank and a number, for each.
fn put_numbers(out: &mut Vec<u8>, numbers: &[u8]) -> Result<(), AllocError>
    ensures exact { OnOk result (out.new.items ≡ out.old.items ++ spec.numbers_text numbers.now) }
{
    for number in numbers {
        out.extend_from_slice(b" ")?;
        put_number(out, u64::from(*number))?;
    }
    Ok(())
}

// Puts ` .. (N in all)`.
fn put_count(out: &mut Vec<u8>, count: usize) -> Result<(), AllocError>
    ensures exact { OnOk result (out.new.items ≡ out.old.items ++ (codes " .. (" ++ (decimal count ++ codes " in all)"))) }
{
    out.extend_from_slice(b" .. (")?;
    put_number(out, count as u64)?;
    out.extend_from_slice(b" in all)")?;
    Ok(())
}

// Puts choices.
pub(crate) fn put_choices(out: &mut Vec<u8>, choices: &[u8]) -> Result<(), AllocError>
    ensures exact { OnOk result (out.new.items ≡ out.old.items ++ spec.choices_text choices.now) }
{
    if choices.is_empty() {
        out.extend_from_slice(b"no choices")?;
        return Ok(());
    }
    out.extend_from_slice(b"choices")?;
    if choices.len() > MOST_SHOWN {
        let (first, _more) = choices.split_at(MOST_SHOWN);
        put_numbers(out, first)?;
        return put_count(out, choices.len());
    }
    put_numbers(out, choices)
}
