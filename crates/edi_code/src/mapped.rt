//! Where the `when`s and the variables of a program stand, beside its code.

ghost use Rattle.std.specs.Prelude.{◌≡◌, ◌+◌, ◌<◌, ◌≤◌, ◌^◌, ◌++◌, ℕ, IfOk, OnOk, length, map, slice_get, Some};
ghost use Rattle.edi_unit.specs.View.{act_of, acts_of, block_of, clause_of, clauses_of, unit_of};
ghost use Rattle.edi_unit.specs.Tree.{ProgramUnit};
ghost use Rattle.edi_unit.specs.Need as need;
ghost use Rattle.edi_unit.specs.Need.{block_at, slots};
ghost use Rattle.edi_unit.specs.Fits.{Fits};
ghost use Rattle.edi_scheme.specs.Laws.{HaveParts, parts_of};
ghost use Rattle.edi_scheme.specs.Lengths.{block_length};
ghost use Rattle.edi_scheme.specs.Code.{code_of};
ghost use Rattle.edi_scheme.specs.Pieces as pieces;
ghost use Rattle.edi_scheme.specs.Awaits.{await_address, block_awaits, variable_offset};
ghost use Rattle.edi_scheme.specs.Sites.{body_start};
ghost use Rattle.edi_code.specs.InScope as long;
ghost use Rattle.edi_code.specs.Scope.{IsScope, blocks_in, clause_kind_of, entry_in, types_in};
ghost use Rattle.edi_code.specs.Writable.{AreEntries, AreWritable, IsWritable};
ghost use Rattle.edi_code.specs.declared.mapped.MappedBlock.{MappedBlock};
ghost use Rattle.edi_code.specs.Mapped as spec;
ghost use Rattle.edi_code.specs.Mapped.{IsMapped, IsMappedBlock};
ghost use Rattle.edi_code.specs.Stored.{stored_from};

use crate::lengths::value_length;
use crate::pieces::close_length;
use crate::program::{block_entries, generate, is_branch};
use crate::scope::{Appended, Behind, Closing, Scope};
use crate::statement_lengths::act_length;
use crate::stored::{Stored, variables_stored};
use edi_target::Code;
use edi_unit::{Act, Acts, Block, Clause, Clauses, TypeTable, Unit};
use std::alloc::{AllocError, Global};

/// A block: the one round it, where a process stands at each of its `when`s, and its variables.
#[derive(Drop)]
pub(crate) struct MappedBlock {
    pub(crate) up: u32,
    pub(crate) awaits: Vec<u32>,
    pub(crate) variables: Vec<Stored>,
}

/// The code of a program, and where its `when`s and its variables stand.
#[derive(Drop)]
pub struct Mapped {
    code: Code,
    blocks: Vec<MappedBlock>,
}

// The addresses of the `when`s of a statement, which stands at `at`.
#[cycle(awaits)]
fn act_awaits(act: &Act, scope: &Scope<'_>, at: u32, out: &mut Vec<u32>) -> Behind
    requires small { at + long.act_length scope.now (act_of act.now) < 2 ^ 32 }
    ensures awaits { OnOk result (out.new.items ≡ out.old.items ++ spec.act_awaits scope.now (act_of act.now) at) }
    ensures behind { IfOk result (λ behind. behind ≡ at + long.act_length scope.now (act_of act.now)) }
{
    match act {
        Act::If(clauses) => clauses_awaits(clauses, scope, at, Closing::Once, out),
        Act::While(clauses) => clauses_awaits(clauses, scope, at, Closing::Repeated, out),
        Act::When(clauses, _) => {
            out.push(at + 2)?;
            let behind = clauses_awaits(clauses, scope, at + 2, Closing::Released, out)?;
            Ok(behind + 3)
        }
        _ => Ok(at + act_length(act, scope)),
    }
}

// Those of statements, the first of which stands at `at`.
#[cycle(awaits)]
fn acts_awaits(acts: &Acts, scope: &Scope<'_>, at: u32, out: &mut Vec<u32>) -> Behind
    requires small { at + long.acts_length scope.now (acts_of acts.now) < 2 ^ 32 }
    ensures awaits { OnOk result (out.new.items ≡ out.old.items ++ spec.acts_awaits scope.now (acts_of acts.now) at) }
    ensures behind { IfOk result (λ behind. behind ≡ at + long.acts_length scope.now (acts_of acts.now)) }
{
    let mut here = at;
    for act in acts.items() {
        here = act_awaits(act, scope, here, out)?;
    }
    Ok(here)
}

// Those of a clause.
#[cycle(awaits)]
fn clause_awaits(clause: &Clause, scope: &Scope<'_>, at: u32, out: &mut Vec<u32>) -> Behind
    requires small { at + long.clause_length scope.now (clause_of clause.now) < 2 ^ 32 }
    ensures awaits { OnOk result (out.new.items ≡ out.old.items ++ spec.clause_awaits scope.now (clause_of clause.now) at) }
    ensures behind { IfOk result (λ behind. behind ≡ at + long.clause_length scope.now (clause_of clause.now)) }
{
    acts_awaits(
        &clause.body,
        scope,
        at + value_length(&clause.condition, scope) + 3,
        out,
    )
}

// Those of clauses, the first of which stands at `at`.
#[cycle(awaits)]
fn clauses_awaits(
    clauses: &Clauses,
    scope: &Scope<'_>,
    at: u32,
    closing: Closing,
    out: &mut Vec<u32>,
) -> Behind
    requires small { at + long.clauses_length scope.now (clause_kind_of closing) (clauses_of clauses.now) < 2 ^ 32 }
    ensures awaits { OnOk result (out.new.items ≡ out.old.items ++ spec.clauses_awaits scope.now (clause_kind_of closing) (clauses_of clauses.now) at) }
    ensures behind { IfOk result (λ behind. behind ≡ at + long.clauses_length scope.now (clause_kind_of closing) (clauses_of clauses.now)) }
{
    let mut behind = clauses.len();
    let mut here = at;
    for clause in clauses.items() {
        behind -= 1;
        let ends = clause_awaits(clause, scope, here, out)?;
        here = ends + close_length(closing, behind == 0);
    }
    Ok(here)
}

// What is known of the block of a scope.
fn mapped_block(scope: &Scope<'_>) -> Result<MappedBlock, AllocError>
    requires scope { IsScope scope.now }
    requires known { scope.now.block < length (blocks_in scope.now) }
    requires room { entry_in scope.now scope.now.block + block_length (types_in scope.now) (blocks_in scope.now) scope.now.block < 2 ^ 32 }
    ensures exact { IfOk result (λ mapped. IsMappedBlock (types_in scope.now) (blocks_in scope.now) scope.now.block mapped) }
{
    let block = &scope.blocks[scope.block as usize];
    let entry = scope.entries[scope.block as usize];
    let at = if is_branch(block.kind) {
        entry
    } else {
        entry + 6
    };
    let mut awaits: Vec<u32> = Vec::new(scope.alloc);
    let _behind = acts_awaits(&block.body, scope, at, &mut awaits)?;
    let variables = variables_stored(scope.alloc, scope.types, block)?;
    Ok(MappedBlock {
        up: block.up,
        awaits,
        variables,
    })
}

// What is known of all blocks, in the order of their numbers.
fn map_blocks(
    alloc: Global,
    types: &TypeTable,
    blocks: &[Block],
    entries: &[u32],
) -> Result<Vec<MappedBlock>, AllocError>
    requires writable { AreWritable types.now (map block_of blocks.now) }
    requires entries { AreEntries types.now (map block_of blocks.now) entries.now }
    ensures all { IfOk result (λ mapped. length mapped.items ≡ length blocks.now) }
    ensures each { IfOk result (λ mapped. (b : ℕ) (x : MappedBlock) → slice_get mapped.items b ≡ Some x →
        IsMappedBlock types.now (map block_of blocks.now) b x) }
{
    let mut mapped: Vec<MappedBlock> = Vec::new(alloc);
    for block in 0..blocks.len() as u32 {
        let scope = Scope {
            alloc,
            types,
            blocks,
            entries,
            variables: &[],
            fields: &[],
            block,
        };
        let one = mapped_block(&scope)?;
        mapped.push(one)?;
    }
    Ok(mapped)
}

// What is known of the blocks of a unit that can be written.
fn unit_mapped(alloc: Global, unit: &Unit) -> Result<Vec<MappedBlock>, AllocError>
    requires writable { IsWritable (unit_of unit.now) }
    ensures all { IfOk result (λ mapped. length mapped.items ≡ length (unit_of unit.now).blocks) }
    ensures each { IfOk result (λ mapped. (b : ℕ) (x : MappedBlock) → slice_get mapped.items b ≡ Some x →
        IsMappedBlock (unit_of unit.now).types (unit_of unit.now).blocks b x) }
{
    let blocks = unit.blocks.items();
    let entries = block_entries(alloc, &unit.types, blocks)?;
    map_blocks(alloc, &unit.types, blocks, &entries)
}

/// The code of a program, as `generate` gives it, with the addresses of its `when`s and the places of its variables. The only
/// error is want of memory. That a run of this code stands at these addresses where the program has arrived, with these words
/// in its memory, is the law `edi_follows::code_arrives_as_meant`.
pub fn generate_mapped(alloc: Global, unit: &Unit) -> Result<Mapped, AllocError>
    requires fits { Fits (unit_of unit.now) }
    requires parts { HaveParts (unit_of unit.now).types }
    requires short { length (code_of (unit_of unit.now)) ≤ 4194304 }
    ensures exact { IfOk result (λ mapped. IsMapped (unit_of unit.now) mapped) }
{
    let code = generate(alloc, unit)?;
    let blocks = unit_mapped(alloc, unit)?;
    Ok(Mapped { code, blocks })
}

impl Mapped {
    /// The code, that of `generate`.
    pub fn code(&self) -> &Code
        ensures exact { (unit : ProgramUnit) → IsMapped unit self.now → result.now ≡ parts_of unit }
    {
        &self.code
    }

    /// Where a process stands at the `when` of this index among those of a block, counted from 0; none where there is no such
    /// `when`. Different `when`s have different addresses.
    pub fn address(&self, block: u32, index: u32) -> Option<u32>
        ensures exact { (unit : ProgramUnit) → IsMapped unit self.now → result ≡ await_address unit block index }
    {
        let mapped = self.blocks.get(block as usize)?;
        mapped.awaits.get(index as usize).copied()
    }

    /// Where a variable of a block stands behind the base of a frame of the block; 0 where there is no such variable.
    pub fn offset(&self, block: u32, variable: u32) -> u32
        ensures exact { (unit : ProgramUnit) → IsMapped unit self.now → block < length unit.blocks →
            variable < length (slots (block_at unit.blocks block)) → result ≡ variable_offset unit block variable }
    {
        match self.variable(block, variable) {
            Some(stored) => stored.offset,
            None => 0,
        }
    }

    /// Whether a variable of a block is a `var` parameter, whose word is the address of the variable that it means.
    pub fn is_place(&self, block: u32, variable: u32) -> bool
        ensures exact { (unit : ProgramUnit) → IsMapped unit self.now → block < length unit.blocks →
            result ≡ pieces.is_address (slice_get (slots (block_at unit.blocks block)) variable) }
    {
        match self.variable(block, variable) {
            Some(stored) => stored.is_place,
            None => false,
        }
    }

    /// The number of the block so many levels out from a block.
    pub fn outer(&self, block: u32, levels: u32) -> u32
        ensures exact { (unit : ProgramUnit) → IsMapped unit self.now → result ≡ need.outer unit.blocks block levels }
    {
        let mut found = block;
        for _level in 0..levels {
            found = self.up(found);
        }
        found
    }

    fn up(&self, block: u32) -> u32
        ensures exact { (unit : ProgramUnit) → IsMapped unit self.now → result ≡ (block_at unit.blocks block).up }
    {
        match self.blocks.get(block as usize) {
            Some(mapped) => mapped.up,
            None => 0,
        }
    }

    fn variable(&self, block: u32, variable: u32) -> Option<Stored>
        ensures exact { (unit : ProgramUnit) → IsMapped unit self.now → block < length unit.blocks →
            result ≡ slice_get (stored_from unit.types (slots (block_at unit.blocks block)) 5) variable }
    {
        let mapped = self.blocks.get(block as usize)?;
        mapped.variables.get(variable as usize).copied()
    }
}
