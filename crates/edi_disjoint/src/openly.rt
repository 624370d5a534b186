//! What branches use outside critical phases.

ghost use Rattle.std.specs.Prelude.{[], ◌≡◌, ◌<◌, ◌≤◌, ◌^◌, ◌&&◌, IfOk, OnOk, length, map, not, slice_get, true};
ghost use Rattle.std.specs.Bool.{Decides};
ghost use Rattle.edi_unit.specs.Fits.{Fits};
ghost use Rattle.edi_unit.specs.Need.{block_at};
ghost use Rattle.edi_unit.specs.Tree.{ProgramUnit};
ghost use Rattle.edi_unit.specs.View.{block_of, blocks_of, unit_of};
ghost use Rattle.edi_disjoint.specs.Footprints.{IsBranch, NamesProgram};
ghost use Rattle.edi_disjoint.specs.Found.{AreTexts, variable_of};
ghost use Rattle.edi_disjoint.specs.Apart.{text_at};
ghost use Rattle.edi_disjoint.specs.Open.{AreOpenUses, NoOpenUses, comes_before, open_unit};
ghost use Rattle.edi_disjoint.specs.Openly as spec;
ghost use Rattle.edi_disjoint.specs.Openly.{Adds, AreBefore, AreValues, put_in, use_of, with_blocks, with_callee, with_handled, with_text, with_variables};
ghost use Rattle.edi_disjoint.specs.Searched.{IsWhole};
ghost use Rattle.edi_disjoint.specs.steps.Inner.{InnerStepsKeep};
ghost use Rattle.edi_calls.specs.State.{State};

use crate::mentions::Mention;
use crate::reach::{open_texts, reach, texts, value_texts};
use crate::searching::{Whole, is_branch, names_program, take_blocks, targets};
use crate::touching::{Footprint, Variable};
use edi_unit::{Block, Callee, Unit, outer};
use std::alloc::{AllocError, Global};

/// A branch uses a variable, or a procedure parameter, outside critical phases: the number of the branch's block, the block that declares
/// the variable, and its number there.
#[derive(Clone, Copy)]
pub struct OpenUse {
    pub block: u32,
    pub home: u32,
    pub number: u32,
}

// ---- the list of them, in order

// Whether one comes before another.
fn is_before(a: OpenUse, b: OpenUse) -> bool
    ensures exact { result ≡ comes_before (use_of a) (use_of b) }
{
    if a.block != b.block {
        return a.block < b.block;
    }
    if a.home != b.home {
        return a.home < b.home;
    }
    a.number < b.number
}

// Whether the one at this index, if there is one, does not come before this one.
fn is_past(list: &[OpenUse], index: usize, one: OpenUse) -> bool
    ensures exact { result ≡ spec.is_past (use_of one) (slice_get list.now index) }
{
    match list.get(index) {
        Some(there) => !is_before(*there, one),
        None => true,
    }
}

// The index of the first that does not come before this one.
fn index_among(list: &[OpenUse], one: OpenUse) -> usize
    ensures exact { result ≡ spec.index_among (use_of one) (map use_of list.now) }
    ensures inside { result ≤ length list.now }
{
    for index in 0..list.len() {
        if is_past(list, index, one) {
            return index;
        }
    }
    list.len()
}

// Whether there is one at this index, and this one does not come before it.
fn is_there(list: &[OpenUse], index: usize, one: OpenUse) -> bool
    ensures exact { result ≡ spec.is_there (use_of one) (slice_get list.now index) }
{
    match list.get(index) {
        Some(there) => !is_before(one, *there),
        None => false,
    }
}

// Puts one at its place, unless it is there.
fn put(list: &mut Vec<OpenUse>, one: OpenUse) -> Result<(), AllocError>
    ensures exact { OnOk result (map use_of list.new.items ≡ put_in (use_of one) (map use_of list.old.items)) }
{
    let index = index_among(list.as_slice(), one);
    if is_there(list.as_slice(), index, one) {
        return Ok(());
    }
    list.insert(index, one)?;
    Ok(())
}

// ---- what one branch uses

// Puts the variables that a branch uses into the list.
fn put_variables(
    list: &mut Vec<OpenUse>,
    block: u32,
    variables: &[Variable],
) -> Result<(), AllocError>
    ensures exact { OnOk result (map use_of list.new.items ≡ with_variables block (map use_of list.old.items) (map variable_of variables.now)) }
{
    for variable in variables {
        let home = variable.home;
        let number = variable.number;
        put(
            list,
            OpenUse {
                block,
                home,
                number,
            },
        )?;
    }
    Ok(())
}

// Puts the procedure parameter that a branch calls or passes on in block `here` into the list.
fn put_callee(
    list: &mut Vec<OpenUse>,
    blocks: &[Block],
    block: u32,
    here: u32,
    callee: Callee,
) -> Result<(), AllocError>
    ensures exact { OnOk result (map use_of list.new.items ≡ with_callee (map block_of blocks.now) block here (map use_of list.old.items) callee) }
{
    match callee {
        Callee::Block { .. } => Ok(()),
        Callee::Formal { levels, variable } => {
            let home = outer(blocks, here, levels);
            let number = variable;
            put(
                list,
                OpenUse {
                    block,
                    home,
                    number,
                },
            )
        }
    }
}

fn put_handled(
    list: &mut Vec<OpenUse>,
    blocks: &[Block],
    block: u32,
    here: u32,
    mention: Mention,
) -> Result<(), AllocError>
    ensures exact { OnOk result (map use_of list.new.items ≡ with_handled (map block_of blocks.now) block here (map use_of list.old.items) mention) }
{
    match mention {
        Mention::Calls(callee) | Mention::Passes(callee) => {
            put_callee(list, blocks, block, here, callee)
        }
        Mention::Reads { .. } | Mention::Assigns { .. } | Mention::Lends { .. } => Ok(()),
    }
}

// The same of all that block `here` mentions.
fn put_text(
    list: &mut Vec<OpenUse>,
    blocks: &[Block],
    block: u32,
    here: u32,
    text: &[Mention],
) -> Result<(), AllocError>
    ensures exact { OnOk result (map use_of list.new.items ≡ with_text (map block_of blocks.now) block here (map use_of list.old.items) text.now) }
{
    for mention in text {
        put_handled(list, blocks, block, here, *mention)?;
    }
    Ok(())
}

fn put_text_of(
    list: &mut Vec<OpenUse>,
    blocks: &[Block],
    block: u32,
    texts: &[Vec<Mention>],
    here: u32,
) -> Result<(), AllocError>
    ensures exact { OnOk result (map use_of list.new.items
        ≡ with_text (map block_of blocks.now) block here (map use_of list.old.items) (text_at texts.now here)) }
{
    let Some(text) = texts.get(here as usize) else {
        return Ok(());
    };
    put_text(list, blocks, block, here, text)
}

// The same of all blocks that the branch gets to.
fn put_blocks(
    list: &mut Vec<OpenUse>,
    blocks: &[Block],
    block: u32,
    texts: &[Vec<Mention>],
    reached: &[u32],
) -> Result<(), AllocError>
    ensures exact { OnOk result (map use_of list.new.items
        ≡ with_blocks (map block_of blocks.now) block texts.now (map use_of list.old.items) reached.now) }
{
    for here in reached {
        put_text_of(list, blocks, block, texts, *here)?;
    }
    Ok(())
}

// What a branch uses outside critical phases: of the texts there, and of them without what they lend.
fn branch_uses(
    whole: &Whole<'_>,
    texts: &[Vec<Mention>],
    values: &[Vec<Mention>],
    block: u32,
) -> Result<Vec<OpenUse>, AllocError>
    ensures exact { IfOk result (λ list. (unit : ProgramUnit) → Fits unit → IsWhole unit whole.now → AreTexts (open_unit unit) texts.now
        → AreValues texts.now values.now → IsBranch unit block → Adds unit block [] (map use_of list.items)) }
{
    let mut list = Vec::new(whole.alloc);
    let mut found = Footprint::new(whole.alloc);
    let reached = reach(whole.alloc, texts, block)?;
    take_blocks(&mut found, whole, values, block, &reached)?;
    found.take_targets(whole.targets)?;
    put_variables(&mut list, block, &found.seen)?;
    put_blocks(&mut list, whole.blocks, block, texts, &reached)?;
    Ok(list)
}

// Puts them behind those of the branches before it, so that no use is looked for among those of others.
fn put_branch(
    list: &mut Vec<OpenUse>,
    whole: &Whole<'_>,
    texts: &[Vec<Mention>],
    values: &[Vec<Mention>],
    block: u32,
) -> Result<(), AllocError>
    ensures exact { OnOk result ((unit : ProgramUnit) → Fits unit → IsWhole unit whole.now → AreTexts (open_unit unit) texts.now
        → AreValues texts.now values.now → IsBranch unit block → AreBefore block (map use_of list.old.items)
        → Adds unit block (map use_of list.old.items) (map use_of list.new.items)) }
{
    let own = branch_uses(whole, texts, values, block)?;
    list.extend_from_slice(&own)?;
    Ok(())
}

// The same of a block; of one of another kind nothing.
fn put_block(
    list: &mut Vec<OpenUse>,
    whole: &Whole<'_>,
    texts: &[Vec<Mention>],
    values: &[Vec<Mention>],
    block: &Block,
    number: u32,
) -> Result<(), AllocError>
    ensures exact { OnOk result ((unit : ProgramUnit) → Fits unit → IsWhole unit whole.now → AreTexts (open_unit unit) texts.now
        → AreValues texts.now values.now → block_of block.now ≡ block_at unit.blocks number → number < length unit.blocks
        → AreBefore number (map use_of list.old.items) → Adds unit number (map use_of list.old.items) (map use_of list.new.items)) }
{
    if !is_branch(block.kind) {
        return Ok(());
    }
    put_branch(list, whole, texts, values, number)?;
    Ok(())
}

// ---- all branches

/// The open uses of a program: exactly these variables and procedure parameters, by the numbers of the
/// branches' blocks, then by those of the blocks that declare them, then by their numbers there. It fails only for want of memory.
pub fn open_uses(alloc: Global, unit: &Unit) -> Result<Vec<OpenUse>, AllocError>
    ensures exact { Fits (unit_of unit.now) → length (blocks_of unit.now.blocks) < 2 ^ 32
        → IfOk result (λ list. AreOpenUses (unit_of unit.now) (map use_of list.items)) }
{
    let all = texts(alloc, unit)?;
    let lent = targets(alloc, unit.blocks.items(), &all)?;
    let whole = Whole {
        alloc,
        blocks: unit.blocks.items(),
        program: unit.program,
        targets: &lent,
    };
    let texts = open_texts(alloc, unit)?;
    let values = value_texts(alloc, &texts)?;
    let mut list = Vec::new(alloc);
    let mut number: u32 = 0;
    for block in unit.blocks.items() {
        put_block(&mut list, &whole, &texts, &values, block, number)?;
        number = number.saturating_add(1);
    }
    Ok(list)
}

/// Whether the program itself is called or passed on somewhere in it, so that its procedure parameters may mean other procedures than calls of
/// the system. It fails only for want of memory.
pub fn names_itself(alloc: Global, unit: &Unit) -> Result<bool, AllocError>
    ensures exact { IfOk result (λ named. Decides named (NamesProgram (unit_of unit.now))) }
{
    let texts = texts(alloc, unit)?;
    Ok(names_program(&texts, unit.program))
}

// Whether a program is not named, and its list is empty.
fn is_neither(named: bool, empty: bool) -> bool
    ensures exact { result ≡ not named && empty }
{
    !named && empty
}

/// Whether a program has no open uses, and is itself called and passed on nowhere. Then each inner step keeps to itself: one of a process that is
/// ready and goes on, unless nobody else may step. It fails only for want of memory.
pub fn has_no_open_uses(alloc: Global, unit: &Unit) -> Result<bool, AllocError>
    ensures exact { Fits (unit_of unit.now) → length (blocks_of unit.now.blocks) < 2 ^ 32 → IfOk result (λ none. Decides none (NoOpenUses (unit_of unit.now))) }
    ensures keep { Fits (unit_of unit.now) → length (blocks_of unit.now.blocks) < 2 ^ 32
        → IfOk result (λ none. none ≡ true → (system : State) → InnerStepsKeep (unit_of unit.now) system) }
{
    let named = names_itself(alloc, unit)?;
    let uses = open_uses(alloc, unit)?;
    Ok(is_neither(named, uses.is_empty()))
}
