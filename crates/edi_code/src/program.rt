//! The code of blocks and programs.

ghost use Rattle.std.specs.Prelude.{◌≡◌, ◌+◌, ◌<◌, ◌≤◌, ◌^◌, [], ◌∷◌, ◌++◌, IfOk, OnOk, length, map};
ghost use Rattle.edi_unit.specs.View.{acts_of, block_of, unit_of};
ghost use Rattle.edi_unit.specs.Need.{block_at};
ghost use Rattle.edi_target.specs.Op.{exit};
ghost use Rattle.edi_unit.specs.Fits.{Fits};
ghost use Rattle.edi_scheme.specs.Laws.{HaveParts, parts_of};
ghost use Rattle.edi_scheme.specs.Lengths.{block_length};
ghost use Rattle.edi_scheme.specs.Pieces as pieces;
ghost use Rattle.edi_scheme.specs.Code.{block_code, blocks_code, code_of, entry};
ghost use Rattle.edi_code.specs.Emits.{Emits, IsWhole, code_of_op};
ghost use Rattle.edi_code.specs.InScope.{ActsAreWritable, acts_code, acts_length};
ghost use Rattle.edi_code.specs.Scope.{IsScope, MayBeWritten, blocks_in, entry_in, types_in};
ghost use Rattle.edi_code.specs.Stored.{AreFields, AreVariables};
ghost use Rattle.edi_code.specs.Writable.{AreEntries, AreWritable, IsRoomy, IsWritable};

use crate::instructions::put;
use crate::pieces::{declared_words, parameters_words, result_words};
use crate::scope::{Appended, Scope};
use crate::statement_lengths::block_words;
use crate::statements::emit_acts;
use crate::stored::{Stored, all_fields, all_variables};
use edi_target::{Code, CodeFault, Op};
use edi_unit::{Acts, Block, BlockKind, TypeTable, Unit};
use std::alloc::{AllocError, Global};

// The address where each block begins: behind the blocks of lower numbers.
pub(crate) fn block_entries(
    alloc: Global,
    types: &TypeTable,
    blocks: &[Block],
) -> Result<Vec<u32>, AllocError>
    requires room { entry types.now (map block_of blocks.now) (length blocks.now) < 2 ^ 32 }
    ensures exact { IfOk result (λ entries. AreEntries types.now (map block_of blocks.now) entries.items) }
{
    let mut entries: Vec<u32> = Vec::new(alloc);
    let mut here: u32 = 0;
    for block in 0..blocks.len() as u32 {
        entries.push(here)?;
        let scope = Scope {
            alloc,
            types,
            blocks,
            entries: &[],
            variables: &[],
            fields: &[],
            block,
        };
        here += block_words(&scope);
    }
    Ok(entries)
}

// The instruction with which a procedure, a function or the program begins.
fn entry_of(types: &TypeTable, block: &Block) -> Op<'static>
    requires frame { IsRoomy types.now (block_of block.now) }
    ensures exact { code_of_op result ≡ pieces.entry_of types.now (block_of block.now) ∷ [] }
    ensures allowed { IsWhole result }
{
    Op::Entry {
        need: block.need as u16,
        results: result_words(types, block.result) as u16,
        parameters: parameters_words(types, &block.parameters) as u16,
        variables: declared_words(types, &block.variables) as u16,
        function: u16::from(block.result.is_some()),
    }
}

// The one with which it ends.
fn return_of(types: &TypeTable, block: &Block) -> Op<'static>
    ensures exact { code_of_op result ≡ pieces.return_of types.now (block_of block.now) ∷ [] }
    ensures allowed { IsWhole result }
{
    Op::Return {
        results: result_words(types, block.result) as u16,
        function: u16::from(block.result.is_some()),
    }
}

// Whether a block is a branch of a `cobegin`.
pub(crate) fn is_branch(kind: BlockKind) -> bool
    ensures exact { result ≡ pieces.is_branch kind }
{
    matches!(kind, BlockKind::Branch)
}

// The code of a branch, which stands at `at`.
fn emit_branch(body: &Acts, scope: &Scope<'_>, at: u32, out: &mut Vec<u16>) -> Appended
    requires may { MayBeWritten scope.now at (acts_length scope.now (acts_of body.now)) (ActsAreWritable scope.now (acts_of body.now)) }
    ensures emits { OnOk result (Emits out.old.items out.new.items (acts_code scope.now at (acts_of body.now) ++ exit ∷ [])) }
{
    emit_acts(body, scope, at, out)?;
    put(scope.alloc, &Op::Exit, out)
}

// The code of a procedure, a function or the program, which stands at `at`.
fn emit_procedure(block: &Block, scope: &Scope<'_>, at: u32, out: &mut Vec<u16>) -> Appended
    requires may { MayBeWritten scope.now (at + 6) (acts_length scope.now (block_of block.now).body) (ActsAreWritable scope.now (block_of block.now).body) }
    requires frame { IsRoomy (types_in scope.now) (block_of block.now) }
    ensures emits { OnOk result (Emits out.old.items out.new.items
        (pieces.entry_of (types_in scope.now) (block_of block.now)
        ∷ (acts_code scope.now (at + 6) (block_of block.now).body ++ pieces.return_of (types_in scope.now) (block_of block.now) ∷ []))) }
{
    put(scope.alloc, &entry_of(scope.types, block), out)?;
    emit_acts(&block.body, scope, at + 6, out)?;
    put(scope.alloc, &return_of(scope.types, block), out)
}

// The code of the block of a scope.
fn emit_block(scope: &Scope<'_>, out: &mut Vec<u16>) -> Appended
    requires scope { IsScope scope.now }
    requires known { scope.now.block < length (blocks_in scope.now) }
    requires writable { ActsAreWritable scope.now (block_at (blocks_in scope.now) scope.now.block).body }
    requires room { entry_in scope.now scope.now.block + block_length (types_in scope.now) (blocks_in scope.now) scope.now.block < 2 ^ 32 }
    ensures emits { OnOk result (Emits out.old.items out.new.items
        (block_code (types_in scope.now) (blocks_in scope.now) (entry_in scope.now scope.now.block) scope.now.block)) }
{
    let block = &scope.blocks[scope.block as usize];
    let at = scope.entries[scope.block as usize];
    if is_branch(block.kind) {
        return emit_branch(&block.body, scope, at, out);
    }
    emit_procedure(block, scope, at, out)
}

// The code of all blocks, in the order of their numbers.
fn emit_blocks(
    alloc: Global,
    types: &TypeTable,
    blocks: &[Block],
    entries: &[u32],
    variables: &[Vec<Stored>],
    fields: &[Vec<Stored>],
    out: &mut Vec<u16>,
) -> Appended
    requires writable { AreWritable types.now (map block_of blocks.now) }
    requires entries { AreEntries types.now (map block_of blocks.now) entries.now }
    requires variables { AreVariables types.now (map block_of blocks.now) variables.now }
    requires fields { AreFields types.now fields.now }
    ensures emits { OnOk result (Emits out.old.items out.new.items (blocks_code types.now (map block_of blocks.now) (length blocks.now))) }
{
    for block in 0..blocks.len() as u32 {
        let scope = Scope {
            alloc,
            types,
            blocks,
            entries,
            variables,
            fields,
            block,
        };
        emit_block(&scope, out)?;
    }
    Ok(())
}

// The words of the code of a unit that can be written.
fn unit_words(alloc: Global, unit: &Unit) -> Result<Vec<u16>, AllocError>
    requires writable { IsWritable (unit_of unit.now) }
    ensures exact { IfOk result (λ words. words.items ≡ code_of (unit_of unit.now)) }
{
    let blocks = unit.blocks.items();
    let entries = block_entries(alloc, &unit.types, blocks)?;
    let variables = all_variables(alloc, &unit.types, blocks)?;
    let fields = all_fields(alloc, &unit.types)?;
    let mut words: Vec<u16> = Vec::new(alloc);
    emit_blocks(
        alloc,
        &unit.types,
        blocks,
        &entries,
        &variables,
        &fields,
        &mut words,
    )?;
    Ok(words)
}

/// The words of the code of a program, whose entry is at address 0. It takes a unit that fits, whose records have fields, and
/// whose code has fewer than 2^32 words. The only error is want of memory.
pub fn code_words(alloc: Global, unit: &Unit) -> Result<Vec<u16>, AllocError>
    requires fits { Fits (unit_of unit.now) }
    requires parts { HaveParts (unit_of unit.now).types }
    requires small { length (code_of (unit_of unit.now)) < 2 ^ 32 }
    ensures exact { IfOk result (λ words. words.items ≡ code_of (unit_of unit.now)) }
{
    unit_words(alloc, unit)
}

/// The code of a program, which is entered at address 0 and is given the calls that the program's parameters are. It takes a
/// unit that fits, whose records have fields, and whose code has at most 4,194,304 words. The only error is want of memory. That
/// this code does what the unit means stands above, in the contract of `edi_compile::translate`.
pub fn generate(alloc: Global, unit: &Unit) -> Result<Code, AllocError>
    requires fits { Fits (unit_of unit.now) }
    requires parts { HaveParts (unit_of unit.now).types }
    requires short { length (code_of (unit_of unit.now)) ≤ 4194304 }
    ensures exact { IfOk result (λ code. code ≡ parts_of (unit_of unit.now)) }
{
    let words = code_words(alloc, unit)?;
    match Code::check(alloc, words, 0, unit.calls.items()) {
        Ok(code) => Ok(code),
        Err(fault) => match fault {
            CodeFault::NoMemory => Err(AllocError),
            _ => unreachable!(),
        },
    }
}
