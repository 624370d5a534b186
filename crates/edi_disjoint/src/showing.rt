//! The report on a program's branches.
#![tactic(auto, using(crate::proofs::Filing::all_filed_append))]

ghost use Rattle.std.specs.Prelude.{◌≡◌, ◌+◌, ◌<◌, ◌^◌, ◌++◌, IfOk, OnOk, codes, decimal, length, map, replicate, [], ◌∷◌};
ghost use Rattle.edi_unit.specs.Lists.{list_items};
ghost use Rattle.edi_unit.specs.View.{act_of, acts_of, blocks_of, clauses_of, unit_of};
ghost use Rattle.edi_unit.specs.Fits.{Fits};
ghost use Rattle.edi_disjoint.specs.Apart.{answer_of};
ghost use Rattle.edi_disjoint.specs.Report.{IsReport, ExchangesReported, branch_lines, fork_lines, forks_in_act, forks_in_acts};
ghost use Rattle.edi_disjoint.specs.Report.{forks_in_clauses, pair_line, pair_lines};
ghost use Rattle.edi_disjoint.specs.Report as spec;
ghost use Rattle.edi_disjoint.specs.Shown.{all_filed, filed_at, filed_by, fork_of, forks_here};

use crate::searching::footprints;
use crate::touching::Footprints;
use edi_unit::{Act, Acts, Blocks, Clauses, Numbers, Unit};
use itoa::Buffer;
use std::alloc::{AllocError, Global};

// As many branches as may live at once beside the process that forks.
const MOST_BRANCHES: usize = 31;

// A `cobegin`: the blocks of its branches, and its line.
#[derive(Drop)]
struct Fork {
    branches: Vec<u32>,
    line: u16,
}

// ---- the `cobegin`s of a program, by the blocks of their first branches

#[cycle(forked)]
fn put_act(alloc: Global, begun: &mut Vec<Vec<Fork>>, act: &Act) -> Result<(), AllocError>
    ensures exact { OnOk result (map forks_here begun.new.items ≡ all_filed (map forks_here begun.old.items) (forks_in_act (act_of act.now))) }
{
    match act {
        Act::Skip | Act::Assign(_, _) | Act::Call(_, _, _) | Act::Halt(_) => Ok(()),
        Act::If(clauses) | Act::While(clauses) | Act::When(clauses, _) => {
            put_clauses(alloc, begun, clauses)
        }
        Act::Cobegin(branches, line) => put_fork(alloc, begun, branches, *line),
    }
}

fn put_fork(
    alloc: Global,
    begun: &mut Vec<Vec<Fork>>,
    branches: &Numbers,
    line: u16,
) -> Result<(), AllocError>
    ensures exact { OnOk result (map forks_here begun.new.items
        ≡ filed_by (map forks_here begun.old.items) (list_items branches.now) (record { branches = list_items branches.now; line = line })) }
{
    match branches.items() {
        [] => Ok(()),
        [first, ..] => {
            let kept = Vec::from_slice(alloc, branches.items())?;
            file(
                begun,
                *first,
                Fork {
                    branches: kept,
                    line,
                },
            )
        }
    }
}

// Puts a `cobegin` at the end of those that begin with this block.
fn file(begun: &mut Vec<Vec<Fork>>, block: u32, fork: Fork) -> Result<(), AllocError>
    ensures exact { OnOk result (map forks_here begun.new.items ≡ filed_at (map forks_here begun.old.items) block (fork_of fork)) }
{
    let index = block as usize;
    if index >= begun.len() {
        return Ok(());
    }
    begun[index].push(fork)?;
    Ok(())
}

#[cycle(forked)]
fn put_clauses(
    alloc: Global,
    begun: &mut Vec<Vec<Fork>>,
    clauses: &Clauses,
) -> Result<(), AllocError>
    ensures exact { OnOk result (map forks_here begun.new.items ≡ all_filed (map forks_here begun.old.items) (forks_in_clauses (clauses_of clauses.now))) }
{
    for clause in clauses.items() {
        put_acts(alloc, begun, &clause.body)?;
    }
    Ok(())
}

#[cycle(forked)]
fn put_acts(alloc: Global, begun: &mut Vec<Vec<Fork>>, acts: &Acts) -> Result<(), AllocError>
    ensures exact { OnOk result (map forks_here begun.new.items ≡ all_filed (map forks_here begun.old.items) (forks_in_acts (acts_of acts.now))) }
{
    for act in acts.items() {
        put_act(alloc, begun, act)?;
    }
    Ok(())
}

// So many lists without a `cobegin`.
fn none_begun(alloc: Global, many: usize) -> Result<Vec<Vec<Fork>>, AllocError>
    ensures exact { IfOk result (λ begun. map forks_here begun.items ≡ replicate many []) }
{
    let mut begun = Vec::new(alloc);
    for _block in 0..many {
        begun.push(Vec::new(alloc))?;
    }
    Ok(begun)
}

// For each block of a program the `cobegin`s whose first branch it is.
fn forks(alloc: Global, blocks: &Blocks) -> Result<Vec<Vec<Fork>>, AllocError>
    ensures exact { IfOk result (λ begun. map forks_here begun.items
        ≡ all_filed (replicate (length (blocks_of blocks.now)) []) (spec.forks_of (blocks_of blocks.now))) }
{
    let mut begun = none_begun(alloc, blocks.items().len())?;
    for block in blocks.items() {
        put_acts(alloc, &mut begun, &block.body)?;
    }
    Ok(begun)
}

// ---- lines

// The beginning of a line: `line N`.
fn put_line(text: &mut Vec<u8>, line: u16) -> Result<(), AllocError>
    ensures { OnOk result (text.new.items ≡ text.old.items ++ (codes "line " ++ decimal line)) }
{
    let mut buffer = Buffer::new();
    text.extend_from_slice(b"line ")?;
    text.extend_from_slice(buffer.format(line).as_bytes())?;
    Ok(())
}

// A blank, and the number of a branch.
fn put_number(text: &mut Vec<u8>, number: u32) -> Result<(), AllocError>
    ensures { OnOk result (text.new.items ≡ text.old.items ++ (codes " " ++ decimal number)) }
{
    let mut buffer = Buffer::new();
    text.extend_from_slice(b" ")?;
    text.extend_from_slice(buffer.format(number).as_bytes())?;
    Ok(())
}

// The end of the line of two branches.
fn put_answer(text: &mut Vec<u8>, disjoint: bool) -> Result<(), AllocError>
    ensures { OnOk result (text.new.items ≡ text.old.items ++ spec.answer_text disjoint) }
{
    if disjoint {
        text.extend_from_slice(b" disjoint\n")?;
        return Ok(());
    }
    text.extend_from_slice(b" may share\n")?;
    Ok(())
}

// The line of two branches.
fn put_pair(text: &mut Vec<u8>, line: u16, i: u32, j: u32, disjoint: bool) -> Result<(), AllocError>
    ensures { OnOk result (text.new.items ≡ text.old.items ++ pair_line disjoint line i j) }
{
    put_line(text, line)?;
    text.extend_from_slice(b" branches")?;
    put_number(text, i)?;
    put_number(text, j)?;
    put_answer(text, disjoint)
}

// The lines of branch `i`, whose block is `block`, with each of these, which are numbered from `i + 1` on.
fn put_pairs(
    text: &mut Vec<u8>,
    found: &Footprints,
    line: u16,
    i: u32,
    block: u32,
    others: &[u32],
) -> Result<(), AllocError>
    requires few { i + length others.now < 2 ^ 32 }
    ensures exact { OnOk result (text.new.items ≡ text.old.items ++ pair_lines (answer_of found.now) line i block (i + 1) others.now) }
{
    let mut j = i;
    for other in others {
        j += 1;
        put_pair(text, line, i, j, found.answer(block, *other))?;
    }
    Ok(())
}

// The lines of all pairs of these branches.
fn put_branches(
    text: &mut Vec<u8>,
    found: &Footprints,
    line: u16,
    branches: &[u32],
) -> Result<(), AllocError>
    requires few { length branches.now < 2 ^ 16 }
    ensures exact { OnOk result (text.new.items ≡ text.old.items ++ branch_lines (answer_of found.now) line 1 branches.now) }
{
    let mut rest = branches;
    let mut i: u32 = 0;
    while let [first, others @ ..] = rest {
        i += 1;
        put_pairs(text, found, line, i, *first, others)?;
        rest = others;
    }
    Ok(())
}

// The line of a `cobegin` of more than 31 branches.
fn put_many(text: &mut Vec<u8>, line: u16) -> Result<(), AllocError>
    ensures { OnOk result (text.new.items ≡ text.old.items ++ spec.many_line line) }
{
    put_line(text, line)?;
    put_too_many(text)
}

fn put_too_many(text: &mut Vec<u8>) -> Result<(), AllocError>
    ensures { OnOk result (text.new.items ≡ text.old.items ++ codes " too many branches\n") }
{
    text.extend_from_slice(b" too many branches\n")?;
    Ok(())
}

// The lines of one `cobegin`.
fn put_report(text: &mut Vec<u8>, found: &Footprints, fork: &Fork) -> Result<(), AllocError>
    ensures exact { OnOk result (text.new.items ≡ text.old.items ++ fork_lines (answer_of found.now) (fork_of fork.now)) }
{
    if fork.branches.len() > MOST_BRANCHES {
        return put_many(text, fork.line);
    }
    put_branches(text, found, fork.line, &fork.branches)
}

// The lines of these `cobegin`s.
fn put_forks(text: &mut Vec<u8>, found: &Footprints, forks: &[Fork]) -> Result<(), AllocError>
    ensures exact { OnOk result (text.new.items ≡ text.old.items ++ spec.report_of (answer_of found.now) (map fork_of forks.now)) }
{
    for fork in forks {
        put_report(text, found, fork)?;
    }
    Ok(())
}

/// A line for each two branches of each `cobegin`, in the order of the text: `line N branches I J disjoint`, or
/// `line N branches I J may share`; for a `cobegin` of more than 31 branches only `line N too many branches`. Branches are
/// counted from 1.
pub fn report(alloc: Global, unit: &Unit) -> Result<Vec<u8>, AllocError>
    ensures exact { Fits (unit_of unit.now) → length (blocks_of unit.now.blocks) < 2 ^ 32 → IfOk result (λ text. IsReport (unit_of unit.now) text.items) }
    ensures exchange { Fits (unit_of unit.now) → length (blocks_of unit.now.blocks) < 2 ^ 32 → IfOk result (λ text. ExchangesReported (unit_of unit.now) text.items) }
{
    let found = footprints(alloc, unit)?;
    let begun = forks(alloc, &unit.blocks)?;
    let mut text = Vec::new(alloc);
    for forks in &begun {
        put_forks(&mut text, &found, forks.as_slice())?;
    }
    Ok(text)
}
