//! The types, blocks and variables that are known at a place.

ghost use Rattle.std.specs.Prelude.{◌≡◌, ◌+◌, ◌<◌, ◌++◌, ◌∷◌, [], map, length, vec_len, slice_set, option_to_list, OnOk, IfOk};
ghost use Rattle.edi_unit.specs.TypeTables.{IsDeclarable};
ghost use Rattle.edi_unit.specs.Need.{block_at};
ghost use Rattle.edi_static.specs.Prelude.{JudgedAnswers, Proper, asked_of, block_of, environment, gives, heading_result, list_items, shape_of};
ghost use Rattle.edi_static.specs.Environment as spec;
ghost use Rattle.edi_static.specs.Declarations.{with_heading};

use crate::faults::{Judged, StaticFault};
use crate::headings::{Asked, asked_result, copy_asked, kept_parameters};
use crate::known::{Known, add, number, put};
use crate::records::FieldNames;
use crate::splits::Splits;
use edi_scope::Scopes;
use edi_unit::{Block, BlockKind, List, Parameters, Shape, TypeTable};
use indexmap::IndexSet;
use std::alloc::{AllocError, Global};

/// The names of the fields of the standard types, which have none.
fn no_fields(alloc: Global) -> Result<Vec<FieldNames>, AllocError>
    ensures exact { IfOk result (λ fields. map (λ names. map (λ name. name.items) names.keys) fields.items ≡ spec.at_first.fields) }
{
    let mut fields = Vec::new(alloc);
    fields.push(IndexSet::new(alloc))?;
    fields.push(IndexSet::new(alloc))?;
    fields.push(IndexSet::new(alloc))?;
    Ok(fields)
}

/// How many function variables there are.
fn result_count(of: Option<u32>) -> usize
    ensures exact { result ≡ length (option_to_list of) }
{
    match of {
        Some(_) => 1,
        None => 0,
    }
}

/// One more declared variable of this block.
fn add_variable_to(blocks: &mut Vec<Block>, alloc: Global, at: usize, of: u32) -> Judged<()>
    requires inside { at < vec_len blocks.old }
    ensures exact { JudgedAnswers (λ _. map block_of blocks.new.items) result
        (gives (slice_set (map block_of blocks.old.items) at (spec.with_variable of (block_at (map block_of blocks.old.items) at)))) }
    ensures len { vec_len blocks.new ≡ vec_len blocks.old }
{
    add(&mut blocks[at].variables, alloc, of)?;
    Ok(())
}

impl Known {
    /// Before a program: the standard names and types.
    pub fn at_first(alloc: Global) -> Result<Known, AllocError>
        ensures exact { IfOk result (λ known. environment known ≡ spec.at_first) }
        ensures proper { IfOk result (λ known. Proper (environment known)) }
    {
        let fields = no_fields(alloc)?;
        let scopes = Scopes::new(alloc)?;
        let types = TypeTable::new(alloc)?;
        Ok(Known {
            scopes,
            types,
            fields,
            blocks: Vec::new(alloc),
            headings: Vec::new(alloc),
            shapes: Vec::new(alloc),
            around: Vec::new(alloc),
            begun: Splits::new(alloc),
        })
    }

    /// Puts a type behind the others.
    pub fn push_type(&mut self, alloc: Global, shape: Shape, names: FieldNames) -> Judged<()>
        requires declarable { IsDeclarable self.old.types (shape_of shape) }
        requires proper { Proper (environment self.old) }
        ensures exact { JudgedAnswers (λ _. environment self.new) result
            (gives (spec.with_type (shape_of shape) (map (λ name. name.items) names.keys) (environment self.old))) }
        ensures proper { OnOk result (Proper (environment self.new)) }
        ensures scopes { self.new.scopes ≡ self.old.scopes }
        ensures types { OnOk result (self.new.types ≡ self.old.types ++ shape_of shape ∷ []) }
    {
        if self.types.len() == u32::MAX {
            return Err(StaticFault::NoMemory);
        }
        let _number = self.types.declare(alloc, shape)?;
        put(&mut self.fields, names)
    }

    /// The number of the next variable of the block in which this place stands.
    pub fn next_variable(&self) -> Judged<u32>
        ensures exact { JudgedAnswers (λ n. n) result (gives (spec.next_variable (environment self.now))) }
    {
        match self.blocks.get(self.here() as usize) {
            Some(block) => {
                let declared = block.parameters.items().len() + block.variables.items().len();
                number(declared + result_count(block.result))
            }
            None => Ok(0),
        }
    }

    /// One more declared variable of the block in which this place stands.
    pub fn add_variable(&mut self, alloc: Global, of: u32) -> Judged<()>
        requires proper { Proper (environment self.old) }
        ensures exact { JudgedAnswers (λ _. environment self.new) result (gives (spec.set_block (spec.here (environment self.old))
            (spec.with_variable of (block_at (environment self.old).blocks (spec.here (environment self.old)))) (environment self.old))) }
        ensures proper { OnOk result (Proper (environment self.new)) }
        ensures scopes { self.new.scopes ≡ self.old.scopes }
        ensures types { self.new.types ≡ self.old.types }
    {
        let here = self.here() as usize;
        if here >= self.blocks.len() {
            return Ok(());
        }
        add_variable_to(&mut self.blocks, alloc, here, of)?;
        Ok(())
    }

    /// Puts a block behind the others, without statements, variables and need.
    pub fn push_block(
        &mut self,
        alloc: Global,
        kind: BlockKind,
        parameters: Parameters,
        asked: Asked,
    ) -> Judged<()>
        requires proper { Proper (environment self.old) }
        ensures exact { JudgedAnswers (λ _. environment self.new) result (gives (spec.with_block
            (spec.begun_block kind (spec.here (environment self.old)) (heading_result (asked_of asked)) (list_items parameters))
            (asked_of asked) (environment self.old))) }
        ensures proper { OnOk result (Proper (environment self.new)) }
    {
        let block = Block {
            kind,
            up: self.here(),
            result: asked_result(&asked),
            parameters,
            variables: List::new(alloc),
            need: 0,
            body: List::new(alloc),
        };
        put(&mut self.blocks, block)?;
        put(&mut self.headings, asked)
    }

    /// Keeps the heading of a procedure parameter.
    pub fn keep_shape(&mut self, alloc: Global, asked: &Asked) -> Judged<()>
        requires proper { Proper (environment self.old) }
        ensures exact { JudgedAnswers (λ _. environment self.new) result (gives (spec.with_shape (asked_of asked.now) (environment self.old))) }
        ensures proper { OnOk result (Proper (environment self.new)) }
        ensures scopes { self.new.scopes ≡ self.old.scopes }
        ensures shapes { OnOk result (length self.new.shapes.items ≡ length self.old.shapes.items + 1) }
    {
        let copy = copy_asked(alloc, asked)?;
        put(&mut self.shapes, copy)
    }

    /// The block of a heading whose scope is the innermost.
    pub fn begin_block(&mut self, alloc: Global, kind: BlockKind, asked: Asked) -> Judged<()>
        requires proper { Proper (environment self.old) }
        ensures exact { JudgedAnswers (λ _. environment self.new) result
            (gives (with_heading kind (record { env = environment self.old; asks = asked_of asked }))) }
        ensures proper { OnOk result (Proper (environment self.new)) }
    {
        let parameters = kept_parameters(alloc, &asked)?;
        self.push_block(alloc, kind, parameters, asked)
    }
}
