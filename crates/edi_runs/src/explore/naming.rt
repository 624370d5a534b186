//! The lines that tell what is said of every order of steps, and how far executions go.

ghost use Rattle.std.specs.Prelude.{◌≡◌, ◌++◌, [], OnOk, Some, map, slice_index_or};
ghost use Rattle.edi_sights.specs.named.Naming.{named_at};
ghost use Rattle.edi_sights.specs.named.Views.{named_of, names_view};
ghost use Rattle.edi_runs.specs.explore.Lines as spec;
ghost use Rattle.edi_runs.specs.explore.Openness.{open_of, variable_used};
ghost use Rattle.edi_runs.specs.explore.Orders.{name_in};
ghost use Rattle.edi_runs.specs.explore.Told.{orders_of};

use crate::explore::openness::OpenNames;
use crate::explore::orders::Orders;
use crate::explore::words::put_moves;
use edi_disjoint::OpenUse;
use edi_explore::Verdict;
use edi_lex::Text;
use edi_sights::{NamedBlock, Names};
use edi_timeline::words::put_number;
use std::alloc::AllocError;

// So many variables are named at most.
const MOST_NAMED: usize = 10;

// The name of a block; one that is not there has none.
fn block_name(blocks: &[NamedBlock], block: usize) -> &[u8]
    ensures exact { result.now ≡ (named_at (map named_of blocks.now) block).name }
{
    match blocks.get(block) {
        Some(named) => named.name.as_slice(),
        None => b"",
    }
}

// The name of a variable of these; one that is not there has none.
fn variable_name(variables: &[Text], number: usize) -> &[u8]
    ensures exact { result.now ≡ slice_index_or variables.now number [] }
{
    match variables.get(number) {
        Some(name) => name.as_slice(),
        None => b"",
    }
}

// The name of a variable of a block.
fn name_at(blocks: &[NamedBlock], block: usize, number: usize) -> &[u8]
    ensures exact { result.now ≡ slice_index_or (named_at (map named_of blocks.now) block).variables number [] }
{
    match blocks.get(block) {
        Some(named) => variable_name(&named.variables, number),
        None => b"",
    }
}

// Puts the line of a variable.
fn put_name(out: &mut Vec<u8>, names: &Names, one: OpenUse) -> Result<(), AllocError>
    ensures exact { OnOk result (out.new.items ≡ out.old.items ++ spec.name_line (name_in (names_view names.now) (variable_used one))) }
{
    let name = name_at(&names.blocks, one.home as usize, one.number as usize);
    let block = block_name(&names.blocks, one.home as usize);
    out.extend_from_slice(name)?;
    out.extend_from_slice(b" of ")?;
    out.extend_from_slice(block)?;
    out.extend_from_slice(b" may be used outside critical phases\n")?;
    Ok(())
}

// Puts the lines of variables.
fn put_names(out: &mut Vec<u8>, names: &Names, uses: &[OpenUse]) -> Result<(), AllocError>
    ensures exact { OnOk result (out.new.items
        ≡ out.old.items ++ spec.name_lines (map (name_in (names_view names.now)) (map variable_used uses.now))) }
{
    for one in uses {
        put_name(out, names, *one)?;
    }
    Ok(())
}

// Puts the lines of the first variables, and how many more there are.
fn put_first(
    out: &mut Vec<u8>,
    names: &Names,
    first: &[OpenUse],
    more: usize,
) -> Result<(), AllocError>
    ensures exact { OnOk result (out.new.items ≡ out.old.items ++ (spec.name_lines (map (name_in (names_view names.now)) (map variable_used first.now))
        ++ spec.more_text more)) }
{
    put_names(out, names, first)?;
    out.extend_from_slice(b"and ")?;
    put_number(out, more as u64)?;
    out.extend_from_slice(b" more\n")?;
    Ok(())
}

// Puts the lines of at most 10 variables, and how many more there are.
fn put_open(out: &mut Vec<u8>, openly: &OpenNames) -> Result<(), AllocError>
    ensures exact { OnOk result (out.new.items ≡ out.old.items ++ spec.names_text (open_of openly.now)) }
{
    let uses = openly.uses.as_slice();
    if uses.len() > MOST_NAMED {
        let (first, more) = uses.split_at(MOST_NAMED);
        return put_first(out, &openly.names, first, more.len());
    }
    put_names(out, &openly.names, uses)
}

// Puts that variables are used outside critical phases.
fn put_used(out: &mut Vec<u8>, openly: &OpenNames) -> Result<(), AllocError>
    ensures exact { OnOk result (out.new.items ≡ out.old.items ++ spec.used_text (open_of openly.now)) }
{
    put_open(out, openly)?;
    out.extend_from_slice(b"another order of steps may end otherwise\n")?;
    Ok(())
}

// Puts that no order of steps ends otherwise than in one of so many ways.
fn put_settled(out: &mut Vec<u8>, endings: usize) -> Result<(), AllocError>
    ensures exact { OnOk result (out.new.items ≡ out.old.items ++ spec.settled_text endings) }
{
    if endings == 0 {
        out.extend_from_slice(b"no order of steps ends, but perhaps by process limit\n")?;
        return Ok(());
    }
    out.extend_from_slice(b"no order of steps ends otherwise, but perhaps by process limit\n")?;
    Ok(())
}

/// Puts what is said of every order of steps, where there are so many endings. The only error is want of memory, as everywhere here.
pub(crate) fn put_orders(
    out: &mut Vec<u8>,
    endings: usize,
    orders: &Orders,
) -> Result<(), AllocError>
    ensures exact { OnOk result (out.new.items ≡ out.old.items ++ spec.orders_text endings (orders_of orders.now)) }
{
    match orders {
        Orders::Settled => put_settled(out, endings),
        Orders::Used(openly) => put_used(out, openly),
        Orders::Unsaid => Ok(()),
    }
}

// Puts that no execution makes more than so many moves.
fn put_bound(out: &mut Vec<u8>, most: usize) -> Result<(), AllocError>
    ensures exact { OnOk result (out.new.items ≡ out.old.items ++ spec.longest_text (Some most)) }
{
    out.extend_from_slice(b"no execution makes more than ")?;
    put_moves(out, most as u64)?;
    out.extend_from_slice(b"\n")?;
    Ok(())
}

// The same, where such a number was found.
fn put_most(out: &mut Vec<u8>, longest: Option<usize>) -> Result<(), AllocError>
    ensures exact { OnOk result (out.new.items ≡ out.old.items ++ spec.longest_text longest) }
{
    match longest {
        Some(most) => put_bound(out, most),
        None => Ok(()),
    }
}

/// Puts how many moves an execution makes at most, where all executions were followed.
pub(crate) fn put_longest(
    out: &mut Vec<u8>,
    verdict: Verdict,
    longest: Option<usize>,
) -> Result<(), AllocError>
    ensures exact { OnOk result (out.new.items ≡ out.old.items ++ spec.longest_line verdict longest) }
{
    match verdict {
        Verdict::All => put_most(out, longest),
        Verdict::Full(_)
        | Verdict::Many(_)
        | Verdict::Cut(_)
        | Verdict::Unrecorded(_)
        | Verdict::NoMemory(_) => Ok(()),
    }
}
