//! The texts of a program are looked through for what each branch touches.

ghost use Rattle.std.specs.Prelude.{◌≡◌, ◌<◌, ◌^◌, [], IfOk, OnOk, length, map};
ghost use Rattle.std.specs.Bool.{Decides};
ghost use Rattle.edi_unit.specs.Tree.{ProgramUnit};
ghost use Rattle.edi_unit.specs.Fits.{Fits};
ghost use Rattle.edi_unit.specs.Need.{block_at};
ghost use Rattle.edi_unit.specs.View.{block_of, blocks_of, unit_of};
ghost use Rattle.edi_disjoint.specs.Apart as apart;
ghost use Rattle.edi_disjoint.specs.Apart.{view_of};
ghost use Rattle.edi_disjoint.specs.Found.{AreFootprints, AreTargets, AreTexts, IsFootprint, variable_of};
ghost use Rattle.edi_disjoint.specs.Footprints.{IsBranch};
ghost use Rattle.edi_disjoint.specs.Searched.{IsWhole};

use crate::mentions::Mention;
use crate::reach::{reach, texts};
use crate::touching::{Footprint, Footprints, Variable, add};
use edi_unit::{Block, BlockKind, Callee, Parameter, Unit, outer, slot};
use std::alloc::{AllocError, Global};

// What a text is looked through for: the program, and the variables that are lent somewhere in it.
#[derive(Clone, Copy)]
pub(crate) struct Whole<'a> {
    pub(crate) alloc: Global,
    pub(crate) blocks: &'a [Block],
    pub(crate) program: u32,
    pub(crate) targets: &'a [Variable],
}

// Whether block `home` stands round block `block`: steps out lead to all that do, the program the last, which stands in itself.
fn encloses(blocks: &[Block], home: u32, block: u32) -> bool
    ensures exact { result ≡ apart.encloses_by (map block_of blocks.now) home block blocks.now }
{
    let mut here = block;
    for _step in blocks {
        let up = outer(blocks, here, 1);
        if up == home {
            return true;
        }
        if up == here {
            return false;
        }
        here = up;
    }
    false
}

// Whether this is a `var` parameter.
fn is_var_slot(slot: Option<Parameter>) -> bool
    ensures exact { result ≡ apart.is_var_slot slot }
{
    match slot {
        Some(Parameter::Var(_)) => true,
        Some(Parameter::Value(_)) | Some(Parameter::Formal(_)) | None => false,
    }
}

// Whether this is the block of the program.
fn is_block(callee: Callee, program: u32) -> bool
    ensures exact { result ≡ apart.is_block program callee }
{
    match callee {
        Callee::Block { block, .. } => block == program,
        Callee::Formal { .. } => false,
    }
}

// Whether a mention is one of the program itself.
fn is_naming(mention: Mention, program: u32) -> bool
    ensures exact { result ≡ apart.is_naming program mention }
{
    match mention {
        Mention::Reads { .. } | Mention::Assigns { .. } | Mention::Lends { .. } => false,
        Mention::Calls(callee) | Mention::Passes(callee) => is_block(callee, program),
    }
}

// Whether a text names the program itself.
fn names_in(text: &[Mention], program: u32) -> bool
    ensures exact { result ≡ apart.names_in program text.now }
{
    for mention in text {
        if is_naming(*mention, program) {
            return true;
        }
    }
    false
}

// Whether the program itself is called or passed on.
pub(crate) fn names_program(texts: &[Vec<Mention>], program: u32) -> bool
    ensures exact { result ≡ apart.any_names program texts.now }
{
    for text in texts {
        if names_in(text.as_slice(), program) {
            return true;
        }
    }
    false
}

// Puts the variable that a mention in block `block` lends at the end of a list that does not have it.
fn add_if_lent(
    list: &mut Vec<Variable>,
    blocks: &[Block],
    block: u32,
    mention: Mention,
) -> Result<(), AllocError>
    ensures exact { OnOk result (map variable_of list.new.items ≡ apart.with_lent (map block_of blocks.now) block (map variable_of list.old.items) mention) }
{
    match mention {
        Mention::Lends { levels, variable } => {
            let home = outer(blocks, block, levels);
            let number = variable;
            add(list, Variable { home, number })
        }
        Mention::Reads { .. } | Mention::Assigns { .. } | Mention::Calls(_) | Mention::Passes(_) =>
            Ok(()),
    }
}

// The same of all that a block mentions.
fn add_lent(
    list: &mut Vec<Variable>,
    blocks: &[Block],
    block: u32,
    text: &[Mention],
) -> Result<(), AllocError>
    ensures exact { OnOk result (map variable_of list.new.items ≡ apart.with_all_lent (map block_of blocks.now) block (map variable_of list.old.items) text.now) }
{
    for mention in text {
        add_if_lent(list, blocks, block, *mention)?;
    }
    Ok(())
}

// The variables that are lent somewhere.
pub(crate) fn targets(
    alloc: Global,
    blocks: &[Block],
    texts: &[Vec<Mention>],
) -> Result<Vec<Variable>, AllocError>
    ensures exact { IfOk result (λ list. map variable_of list.items ≡ apart.all_lent (map block_of blocks.now) 0 [] texts.now) }
{
    let mut list = Vec::new(alloc);
    let mut block: u32 = 0;
    for text in texts {
        add_lent(&mut list, blocks, block, text)?;
        block = block.saturating_add(1);
    }
    Ok(list)
}

impl Footprint {
    // Nothing yet.
    pub(crate) fn new(alloc: Global) -> Footprint
        ensures exact { view_of result ≡ apart.nothing_in }
    {
        Footprint {
            seen: Vec::new(alloc),
            written: Vec::new(alloc),
            calls_system: false,
            calls_parameter: false,
            sees_var: false,
            writes_var: false,
        }
    }

    // A variable whose block stands round the branch, or does not; it is a `var` parameter, and may be written.
    fn see_variable(
        &mut self,
        round: bool,
        variable: Variable,
        is_var: bool,
        written: bool,
    ) -> Result<(), AllocError>
        ensures exact { OnOk result (view_of self.new ≡ apart.seen_in round (variable_of variable) is_var written (view_of self.old)) }
    {
        self.sees_var = self.sees_var || is_var;
        self.writes_var = self.writes_var || (is_var && written);
        if !round {
            return Ok(());
        }
        add(&mut self.seen, variable)?;
        if !written {
            return Ok(());
        }
        add(&mut self.written, variable)
    }

    // A variable that a text in block `here` mentions, which branch `branch` gets to; it may be written.
    fn see(
        &mut self,
        whole: &Whole<'_>,
        branch: u32,
        here: u32,
        levels: u32,
        number: u32,
        written: bool,
    ) -> Result<(), AllocError>
        ensures exact { OnOk result (view_of self.new ≡ apart.see_in (map block_of whole.now.blocks.now) branch here levels number written (view_of self.old)) }
    {
        let home = outer(whole.blocks, here, levels);
        let is_var = is_var_slot(slot(whole.blocks, here, levels, number));
        let round = encloses(whole.blocks, home, branch);
        self.see_variable(round, Variable { home, number }, is_var, written)
    }

    // A call of a procedure parameter, which is one of the program's or another; a block is called by its name.
    fn call(&mut self, whole: &Whole<'_>, here: u32, callee: Callee)
        ensures exact { view_of self.new ≡ apart.call_in (map block_of whole.now.blocks.now) whole.now.program here callee (view_of self.old) }
    {
        match callee {
            Callee::Block { .. } => {}
            Callee::Formal { levels, .. } => {
                if outer(whole.blocks, here, levels) == whole.program {
                    self.calls_system = true;
                } else {
                    self.calls_parameter = true;
                }
            }
        }
    }

    // One mention in block `here`.
    fn take(
        &mut self,
        whole: &Whole<'_>,
        branch: u32,
        here: u32,
        mention: Mention,
    ) -> Result<(), AllocError>
        ensures exact { OnOk result (view_of self.new ≡ apart.take_in (map block_of whole.now.blocks.now) whole.now.program branch here mention (view_of self.old)) }
    {
        match mention {
            Mention::Reads { levels, variable } => {
                self.see(whole, branch, here, levels, variable, false)
            }
            Mention::Assigns { levels, variable } => {
                self.see(whole, branch, here, levels, variable, true)
            }
            Mention::Lends { levels, variable } => {
                self.see(whole, branch, here, levels, variable, true)
            }
            Mention::Calls(callee) => {
                self.call(whole, here, callee);
                Ok(())
            }
            Mention::Passes(_) => Ok(()),
        }
    }

    // All that the text of block `here` mentions.
    fn take_all(
        &mut self,
        whole: &Whole<'_>,
        branch: u32,
        here: u32,
        text: &[Mention],
    ) -> Result<(), AllocError>
        ensures exact { OnOk result (view_of self.new ≡ apart.take_all_in (map block_of whole.now.blocks.now) whole.now.program branch here text.now (view_of self.old)) }
    {
        for mention in text {
            self.take(whole, branch, here, *mention)?;
        }
        Ok(())
    }

    // One variable that a `var` parameter may mean.
    fn take_target(&mut self, target: Variable) -> Result<(), AllocError>
        ensures exact { OnOk result (view_of self.new ≡ apart.target_in (variable_of target) (view_of self.old)) }
    {
        if self.sees_var {
            add(&mut self.seen, target)?;
        }
        if self.writes_var {
            add(&mut self.written, target)?;
        }
        Ok(())
    }

    // All of them.
    pub(crate) fn take_targets(&mut self, targets: &[Variable]) -> Result<(), AllocError>
        ensures exact { OnOk result (view_of self.new ≡ apart.targets_in (map variable_of targets.now) (view_of self.old)) }
    {
        for target in targets {
            self.take_target(*target)?;
        }
        Ok(())
    }
}

// What the texts of these blocks mention.
pub(crate) fn take_blocks(
    found: &mut Footprint,
    whole: &Whole<'_>,
    texts: &[Vec<Mention>],
    branch: u32,
    blocks: &[u32],
) -> Result<(), AllocError>
    ensures exact { OnOk result (view_of found.new
        ≡ apart.blocks_in (map block_of whole.now.blocks.now) whole.now.program branch texts.now blocks.now (view_of found.old)) }
{
    for block in blocks {
        take_block(found, whole, texts, branch, *block)?;
    }
    Ok(())
}

fn take_block(
    found: &mut Footprint,
    whole: &Whole<'_>,
    texts: &[Vec<Mention>],
    branch: u32,
    block: u32,
) -> Result<(), AllocError>
    ensures exact { OnOk result (view_of found.new
        ≡ apart.take_all_in (map block_of whole.now.blocks.now) whole.now.program branch block (apart.text_at texts.now block) (view_of found.old)) }
{
    let Some(text) = texts.get(block as usize) else {
        return Ok(());
    };
    found.take_all(whole, branch, block, text)
}

// The footprint of one branch.
fn one_footprint(
    whole: &Whole<'_>,
    texts: &[Vec<Mention>],
    branch: u32,
) -> Result<Footprint, AllocError>
    ensures exact { IfOk result (λ found. (unit : ProgramUnit) → Fits unit → IsWhole unit whole.now → AreTexts unit texts.now → IsBranch unit branch
        → IsFootprint unit branch found) }
{
    let mut found = Footprint::new(whole.alloc);
    let blocks = reach(whole.alloc, texts, branch)?;
    take_blocks(&mut found, whole, texts, branch, &blocks)?;
    found.take_targets(whole.targets)?;
    Ok(found)
}

// Whether a block is a branch of a `cobegin`.
pub(crate) fn is_branch(kind: BlockKind) -> bool
    ensures exact { result ≡ apart.is_branch_kind kind }
{
    matches!(kind, BlockKind::Branch)
}

// The footprint of a block; an empty one if it is none of a branch.
fn branch_footprint(
    whole: &Whole<'_>,
    texts: &[Vec<Mention>],
    block: &Block,
    number: u32,
) -> Result<Footprint, AllocError>
    ensures exact { IfOk result (λ found. (unit : ProgramUnit) → Fits unit → IsWhole unit whole.now → AreTexts unit texts.now → IsBranch unit number
        → block_of block.now ≡ block_at unit.blocks number → IsFootprint unit number found) }
{
    if !is_branch(block.kind) {
        return Ok(Footprint::new(whole.alloc));
    }
    one_footprint(whole, texts, number)
}

/// The footprints of all branches of a program.
pub fn footprints(alloc: Global, unit: &Unit) -> Result<Footprints, AllocError>
    ensures exact { Fits (unit_of unit.now) → length (blocks_of unit.now.blocks) < 2 ^ 32 → IfOk result (λ found. AreFootprints (unit_of unit.now) found) }
{
    let texts = texts(alloc, unit)?;
    let lent = targets(alloc, unit.blocks.items(), &texts)?;
    let whole = Whole {
        alloc,
        blocks: unit.blocks.items(),
        program: unit.program,
        targets: &lent,
    };
    let named = names_program(&texts, unit.program);
    let mut branches = Vec::new(alloc);
    let mut number: u32 = 0;
    for block in unit.blocks.items() {
        branches.push(branch_footprint(&whole, &texts, block, number)?)?;
        number = number.saturating_add(1);
    }
    Ok(Footprints { named, branches })
}
