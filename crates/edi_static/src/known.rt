//! What is known at a place of a text: what each name means there, and what has become of the constructs before it.

ghost use Rattle.std.specs.Prelude.{◌≡◌, ◌<◌, ◌++◌, ◌∷◌, [], false, length, Err, OnOk, OnErr, IfOk, IsTrue, ◌==◌};
ghost use Rattle.std.specs.List.{list_any};
ghost use Rattle.edi_unit.specs.Types.{shape_at, is_elementary};
ghost use Rattle.edi_scope.specs.Scope.{in_module, outside};
ghost use Rattle.edi_static.specs.Prelude.{EntityFits, JudgedAnswers, Proper, environment, gives, list_items, shape_of};
ghost use Rattle.edi_static.specs.Judged as judged;
ghost use Rattle.edi_static.specs.Environment as spec;
ghost use Rattle.edi_static.specs.Headings.{leave, round};
ghost use Rattle.edi_static.specs.Answers as answers;
ghost use Rattle.edi_static.specs.declared.faults.StaticFault.TheVariants as why;

use crate::faults::{Judged, StaticFault, StaticKind};
use crate::headings::Asked;
use crate::records::FieldNames;
use crate::splits::Splits;
use edi_scope::{Entity, ScopeFault, Scopes};
use edi_tree::Name;
use edi_unit::{Block, List, Shape, TypeTable, Value};
use std::alloc::{AllocError, AllocFailed, Global};

/// What is known at a place.
#[derive(Drop)]
pub struct Known {
    pub scopes: Scopes,
    pub types: TypeTable,
    /// The names of each type's fields.
    pub fields: Vec<FieldNames>,
    pub blocks: Vec<Block>,
    /// The heading of each block.
    pub headings: Vec<Asked>,
    /// The headings of procedure parameters, by the numbers with which the scopes keep them.
    pub shapes: Vec<Asked>,
    /// The blocks round this place, the innermost first.
    pub around: Vec<u32>,
    /// The procedures of the innermost scope that are begun, in the order of the text.
    pub begun: Splits,
}

/// A fault of this kind at this line.
pub fn fault<T>(kind: StaticKind, line: u16) -> Judged<T>
    ensures exact { result ≡ Err (StaticFault.At kind line) }
{
    Err(StaticFault::At { kind, line })
}

/// A rule: where it does not hold, there is a fault of this kind at this line.
pub fn must(holds: bool, kind: StaticKind, line: u16) -> Judged<()>
    ensures exact { JudgedAnswers (λ _. tt) result (judged.must holds kind line) }
{
    if holds { Ok(()) } else { fault(kind, line) }
}

impl From<AllocError> for StaticFault {
    ghost from_gives = { λ _ e. e ≡ why.NoMemory };

    fn from(_error: AllocError) -> Self {
        StaticFault::NoMemory
    }
}

impl<T: Drop> From<AllocFailed<T>> for StaticFault {
    ghost from_gives = { λ _ e. e ≡ why.NoMemory };

    fn from(_error: AllocFailed<T>) -> Self {
        StaticFault::NoMemory
    }
}

/// Puts an item behind the others. Where memory is wanting the list stays as it was, and the item is given up.
pub fn put<T: Drop>(list: &mut Vec<T>, item: T) -> Result<(), StaticFault>
    ensures ok { OnOk result (list.new.items ≡ list.old.items ++ item ∷ []) }
    ensures err { OnErr result (result ≡ Err StaticFault.NoMemory) }
    ensures same { OnErr result (list.new.items ≡ list.old.items) }
{
    list.push(item)?;
    Ok(())
}

/// Puts an item at the end of a list. Where memory is wanting the list stays as it was, and the item is given up.
pub fn add<T: Drop>(list: &mut List<T>, alloc: Global, item: T) -> Result<(), StaticFault>
    ensures ok { OnOk result (list_items list.new ≡ list_items list.old ++ item ∷ []) }
    ensures err { OnErr result (result ≡ Err StaticFault.NoMemory) }
    ensures same { OnErr result (list_items list.new ≡ list_items list.old) }
{
    list.push(alloc, item)?;
    Ok(())
}

/// A value in a box.
pub fn boxed(alloc: Global, value: Value) -> Result<Box<Value>, StaticFault>
    ensures ok { IfOk result (λ boxed. boxed.value ≡ value) }
    ensures err { OnErr result (result ≡ Err StaticFault.NoMemory) }
{
    Ok(Box::new(alloc, value)?)
}

/// An index as a number, if there is room for more numbers.
pub fn number(index: usize) -> Judged<u32>
    ensures exact { JudgedAnswers (λ n. n) result (gives index) }
{
    if index < 0xFFFF_FFFF {
        Ok(index as u32)
    } else {
        Err(StaticFault::NoMemory)
    }
}

/// The kind of fault of a used name that means nothing.
fn unknown(spelling: &[u8]) -> StaticKind
    ensures exact { result ≡ spec.unknown spelling.now }
{
    let left_out = spelling == b"addr".as_slice()
        || spelling == b"obtain".as_slice()
        || spelling == b"place".as_slice()
        || spelling == b"sense".as_slice();
    if left_out {
        StaticKind::NotInProfile
    } else {
        StaticKind::Undeclared
    }
}

impl Known {
    /// Opens a scope inside the innermost.
    pub fn enter(&mut self, alloc: Global, is_module: bool) -> Judged<()>
        requires proper { Proper (environment self.old) }
        ensures exact { JudgedAnswers (λ _. environment self.new) result (gives (spec.enter is_module (environment self.old))) }
        ensures proper { OnOk result (Proper (environment self.new)) }
    {
        self.scopes.enter(alloc, is_module)?;
        Ok(())
    }

    /// Closes the innermost scope, which is not the standard one.
    pub fn leave(&mut self)
        requires depth { 1 < length self.old.scopes }
        requires proper { Proper (environment self.old) }
        ensures exact { environment self.new ≡ leave (environment self.old) }
        ensures proper { Proper (environment self.new) }
    {
        self.scopes.leave();
    }

    /// What a used name means. It must mean something.
    pub fn look_up(&self, name: &Name) -> Judged<Entity>
        ensures exact { JudgedAnswers (λ e. e) result (spec.look_up (environment self.now) name.now) }
        ensures known { Proper (environment self.now) → IfOk result (λ e. EntityFits (environment self.now) e) }
    {
        match self.scopes.look(name.text.as_slice()) {
            Some(entity) => Ok(entity),
            None => fault(unknown(name.text.as_slice()), name.line),
        }
    }

    /// A type is asked.
    pub fn type_named(&self, name: &Name) -> Judged<u32>
        ensures exact { JudgedAnswers (λ t. t) result (spec.type_named (environment self.now) name.now) }
        ensures known { Proper (environment self.now) → IfOk result (λ t. t < length self.now.types) }
    {
        match self.look_up(name)? {
            Entity::Types(t) => Ok(t),
            _ => fault(StaticKind::Kind, name.line),
        }
    }

    /// Declares a name. It must be new in the innermost scope and, where it is exported, in the scope round that one.
    pub fn declare(&mut self, alloc: Global, export: bool, name: &Name, means: Entity) -> Judged<()>
        requires module { IsTrue export → IsTrue (in_module self.old.scopes) }
        requires proper { Proper (environment self.old) }
        requires fits { EntityFits (environment self.old) means }
        ensures exact { JudgedAnswers (λ _. environment self.new) result (spec.declare export name.now means (environment self.old)) }
        ensures exporting { IsTrue export → IsTrue (in_module self.new.scopes) }
        ensures proper { OnOk result (Proper (environment self.new)) }
        ensures depth { length self.new.scopes ≡ length self.old.scopes }
        ensures outside { export ≡ false → outside self.new.scopes ≡ outside self.old.scopes }
        ensures types { self.new.types ≡ self.old.types }
    {
        let stated = self
            .scopes
            .declare(alloc, name.text.as_slice(), means, export);
        fault_at(stated, name.line)
    }

    /// Declares a name in the scope round the innermost, where it must be new; where it is exported, in the scope round that one
    /// too, and the first of these is that of a module.
    pub fn declare_round(
        &mut self,
        alloc: Global,
        export: bool,
        name: &Name,
        means: Entity,
    ) -> Judged<()>
        requires depth { 1 < length self.old.scopes }
        requires module { IsTrue export → IsTrue (in_module (outside self.old.scopes)) }
        requires proper { Proper (environment self.old) }
        requires fits { EntityFits (environment self.old) means }
        ensures exact { JudgedAnswers (λ _. environment self.new) result (round (spec.declare export name.now means) (environment self.old)) }
        ensures exporting { OnOk result (IsTrue export → IsTrue (in_module (outside self.new.scopes))) }
        ensures proper { OnOk result (Proper (environment self.new)) }
        ensures depth { OnOk result (length self.new.scopes ≡ length self.old.scopes) }
    {
        let stated = self
            .scopes
            .declare_round(alloc, name.text.as_slice(), means, export);
        fault_at(stated, name.line)
    }

    /// Gives a name with what it means to the scope round the one round the innermost, which is that of a module. It must be new
    /// there.
    pub fn give_outside_round(&mut self, alloc: Global, name: &Name, means: Entity) -> Judged<()>
        requires module { IsTrue (in_module (outside self.old.scopes)) }
        requires proper { Proper (environment self.old) }
        requires fits { EntityFits (environment self.old) means }
        ensures exact { JudgedAnswers (λ _. environment self.new) result (round (spec.give_outside name.now means) (environment self.old)) }
        ensures exporting { OnOk result (IsTrue (in_module (outside self.new.scopes))) }
        ensures proper { OnOk result (Proper (environment self.new)) }
        ensures depth { OnOk result (length self.new.scopes ≡ length self.old.scopes) }
    {
        let stated = self.scopes.export_round(alloc, name.text.as_slice(), means);
        fault_at(stated, name.line)
    }

    /// What a type is; a number that is not in the table counts as `int`.
    pub fn shape(&self, t: u32) -> &Shape
        ensures exact { shape_of result.now ≡ shape_at self.now.types t }
    {
        if t < self.types.len() {
            self.types.shape(t)
        } else {
            self.types.shape(0)
        }
    }

    /// Whether a type is elementary; a number that is not in the table counts as `int`.
    pub fn is_elementary(&self, t: u32) -> bool
        ensures exact { result ≡ is_elementary self.now.types t }
    {
        t >= self.types.len() || self.types.is_elementary(t)
    }

    /// The block in which this place stands.
    pub fn here(&self) -> u32
        ensures exact { result ≡ spec.here (environment self.now) }
    {
        match self.around.first() {
            Some(block) => *block,
            None => 0,
        }
    }

    /// The steps out from the block of this place to one round it.
    pub fn steps_to(&self, block: u32) -> usize
        ensures exact { result ≡ spec.steps_to block (environment self.now).around }
    {
        let mut steps = 0;
        for around in self.around.as_slice() {
            if *around == block {
                return steps;
            }
            steps += 1;
        }
        steps
    }

    /// Whether a block is round this place.
    pub fn is_around(&self, block: u32) -> bool
        ensures exact { result ≡ list_any (λ a. a == block) (environment self.now).around }
    {
        for around in self.around.as_slice() {
            if *around == block {
                return true;
            }
        }
        false
    }
}

/// What an answer of the scopes is for a name on a line.
fn fault_at(stated: Result<(), ScopeFault>, line: u16) -> Judged<()>
    ensures exact { result ≡ answers.fault_at line stated }
{
    match stated {
        Ok(()) => Ok(()),
        Err(ScopeFault::Ambiguous) => fault(StaticKind::Ambiguous, line),
        Err(ScopeFault::NoMemory) => Err(StaticFault::NoMemory),
    }
}
