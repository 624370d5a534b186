//! Evaluation to the end, by an explicit list of what is left to do.

ghost use Rattle.std.specs.Prelude.{◌≡◌, [], None, map, slice_index_or, unwrap_or, Err, IfOk, OnErr};
ghost use Rattle.edi_meaning.specs.Whole as whole;
ghost use Rattle.edi_walk.specs.declared.stop.Stop.TheVariants as stop;
ghost use Rattle.edi_walk.specs.Memory.{store_of};
ghost use Rattle.edi_unit.specs.Tree as tree;
ghost use Rattle.edi_unit.specs.Types as types;
ghost use Rattle.edi_unit.specs.View as view;
ghost use Rattle.edi_unit.specs.View.{expression_of, part_of, place_of, unit_of};
ghost use Rattle.edi_walk.specs.Data.{cell_of, designated_of, location_of};
ghost use Rattle.edi_walk.specs.Frames.{indexes, loads, nothing, places, refines};
ghost use Rattle.edi_walk.specs.Machine.{frame_of, given_of, IsSameProcess, Resumes};
ghost use Rattle.edi_walk.specs.declared.frames.Given.TheVariants as make;
ghost use Rattle.edi_walk.specs.Frames.{was_true};
ghost use Rattle.edi_meaning.specs.Store.{located, no_cell};
ghost use Rattle.edi_unit.specs.Need.{slot_type};

use crate::data::{Held, LocationAt, SpotAt, Target};
use crate::evaluation::{Evaluation, place_in, value_in};
use crate::frames::{Frame, Given};
use crate::lists::add;
use crate::memory::Activation;
use crate::operators::ordinal;
use crate::stop::Stop;
use edi_calls::Cause;
use edi_unit::{Parameter, Part, Place, Shape, Unit, Value, slot};
use std::alloc::Global;
use std::mem;

/// The type of a variable.
fn type_of(slot: Option<Parameter>) -> u32
    ensures exact { result ≡ slot_type slot }
{
    match slot {
        None => 0,
        Some(Parameter::Value(of)) => of,
        Some(Parameter::Var(of)) => of,
        Some(Parameter::Formal(_)) => 0,
    }
}

/// A variable of an instance.
fn variable_at(
    alloc: Global,
    process: &[u64],
    depth: usize,
    variable: u32,
) -> Result<LocationAt, Stop>
    ensures exact { IfOk result (λ l. location_of l ≡ record { spot = (process.now, depth); variable = variable; path = [] }) }
    ensures err { OnErr result (result ≡ Err stop.NoMemory) }
{
    Ok(LocationAt {
        spot: SpotAt::new(alloc, process, depth)?,
        variable,
        path: Vec::new(alloc),
    })
}

/// Where a variable of an instance is that holds this: where a `var` parameter says, or there.
fn cell_at(
    alloc: Global,
    cell: &Held,
    process: &[u64],
    depth: usize,
    variable: u32,
) -> Result<LocationAt, Stop>
    ensures exact { IfOk result (λ l. location_of l ≡ located (process.now, depth) variable (cell_of cell.now)) }
    ensures err { OnErr result (result ≡ Err stop.NoMemory) }
{
    match cell {
        Held::Value(_) => variable_at(alloc, process, depth, variable),
        Held::Location(location) => Ok(location.copy(alloc)?),
        Held::Procedure(_) => variable_at(alloc, process, depth, variable),
    }
}

/// Where a variable of an instance is.
fn slot_at(
    alloc: Global,
    instance: &Activation,
    process: &[u64],
    depth: usize,
    variable: u32,
) -> Result<LocationAt, Stop>
    ensures exact { IfOk result (λ l. location_of l
        ≡ located (process.now, depth) variable (slice_index_or (map cell_of instance.now.cells.items) variable no_cell)) }
    ensures err { OnErr result (result ≡ Err stop.NoMemory) }
{
    match instance.cells.get(variable as usize) {
        Some(cell) => cell_at(alloc, cell, process, depth, variable),
        None => variable_at(alloc, process, depth, variable),
    }
}

/// The number of the field's type.
pub fn field_type(unit: &Unit, of: u32, field: u32) -> u32
    ensures exact { result ≡ unwrap_or (types.field_type (unit_of unit.now).types of field) 0 }
{
    if of >= unit.types.len() {
        return 0;
    }
    unit.types.field(of, field as usize).unwrap_or(0)
}

impl<'u> Evaluation<'u> {
    /// What is given, which is nothing then.
    pub fn take(&mut self) -> Given
        ensures given { result ≡ self.old.given }
        ensures exact { self.new ≡ record self.old { given = make.Nothing } }
        ensures same { IsSameProcess self.old self.new }
    {
        mem::replace(&mut self.given, Given::Nothing)
    }

    /// Does a frame that was taken from the list.
    pub fn resume(&mut self, frame: Frame<'u>) -> Result<(), Stop>
        ensures exact { Resumes (frame_of frame.entry) (given_of self.old.given) result self.old self.new }
        ensures same { IsSameProcess self.old self.new }
    {
        match frame {
            Frame::Evaluates(e) => self.evaluate(e),
            Frame::Places(place) => self.place(place),
            Frame::Refines(target, parts) => self.refine(target, parts),
            Frame::Performs(acts) => {
                let given = self.take();
                self.perform(acts, given)
            }
            Frame::Tries(clauses) => {
                let given = self.take();
                self.attempt(clauses, given)
            }
            Frame::Gathers(values, more) => {
                let given = self.take();
                self.gather(values, more, given)
            }
            Frame::Joins(set, more, line) => {
                let given = self.take();
                self.join(set, more, line, given)
            }
            Frame::Collects(cells, more) => {
                let given = self.take();
                self.collect(cells, more, given)
            }
            Frame::Negates => {
                let given = self.take();
                self.negate(given)
            }
            Frame::Signs(line) => {
                let given = self.take();
                self.sign(line, given)
            }
            Frame::Converts(of, line) => {
                let given = self.take();
                self.convert(of, line, given)
            }
            Frame::LinksOn(links) => {
                let given = self.take();
                self.link(links, given)
            }
            Frame::Operates(left, operator, line, links) => {
                let given = self.take();
                self.operate(left, operator, line, links, given)
            }
            Frame::Indexes(target, line, parts) => {
                let given = self.take();
                self.index(target, line, parts, given)
            }
            Frame::Stores(target) => {
                let given = self.take();
                self.store(target, given)
            }
            Frame::Tests(acts, clauses) => {
                let given = self.take();
                self.test(acts, clauses, given)
            }
            Frame::Loads => {
                let given = self.take();
                self.load(given)
            }
            Frame::Assigns(e) => {
                let given = self.take();
                self.assign(e, given)
            }
            Frame::CallsFunction(callee, line) => {
                let given = self.take();
                self.call_function(callee, line, given)
            }
            Frame::CallsProcedure(callee, line) => {
                let given = self.take();
                self.call_procedure(callee, line, given)
            }
            Frame::Asks(number, line) => self.put(Frame::Asks(number, line)),
            Frame::Loops(clauses) => {
                let given = self.take();
                self.repeat(clauses, given)
            }
            Frame::EndsFunction => {
                let given = self.take();
                self.end_function(given)
            }
            Frame::EndsProcedure => {
                let given = self.take();
                self.end_procedure(given)
            }
            Frame::WasTrue => self.was_true(),
        }
    }

    fn was_true(&mut self) -> Result<(), Stop>
        ensures exact { Resumes was_true nothing result self.old self.new }
        ensures same { IsSameProcess self.old self.new }
    {
        self.given = Given::Whether(true);
        Ok(())
    }

    fn place(&mut self, place: &'u Place) -> Result<(), Stop>
        ensures exact { Resumes (places (place_of place.now)) nothing result self.old self.new }
        ensures same { IsSameProcess self.old self.new }
    {
        let target = self.named(place.levels, place.variable)?;
        self.put(Frame::Refines(target, place.parts.items()))
    }

    /// The variable of a slot, with its type.
    pub fn named(&self, levels: u32, variable: u32) -> Result<Target, Stop>
        ensures exact { IfOk result (λ t. designated_of t
            ≡ whole.named (unit_of self.now.unit.now) self.now.name.items self.now.size levels variable (store_of self.now.memory)) }
        ensures err { OnErr result (result ≡ Err stop.NoMemory) }
    {
        let Some((process, depth)) = self.memory.reached(&self.name, levels) else {
            return Err(Stop::NoMemory);
        };
        let Some(instance) = self.memory.instance(process, depth) else {
            return Err(Stop::NoMemory);
        };
        let of = type_of(slot(self.unit.blocks.items(), instance.block, 0, variable));
        let at = slot_at(self.alloc, instance, process, depth, variable)?;
        Ok(Target { at, of })
    }

    fn refine(&mut self, target: Target, parts: &'u [Part]) -> Result<(), Stop>
        ensures exact { Resumes (refines (designated_of target) (view.parts (map part_of parts.now))) nothing result self.old self.new }
        ensures same { IsSameProcess self.old self.new }
    {
        match parts {
            [] => self.placed(target),
            [first, rest @ ..] => self.refine_next(target, first, rest),
        }
    }

    fn placed(&mut self, target: Target) -> Result<(), Stop>
        ensures exact { Resumes (refines (designated_of target) tree.no_part) nothing result self.old self.new }
        ensures same { IsSameProcess self.old self.new }
    {
        self.given = Given::Place(target);
        Ok(())
    }

    fn refine_next(&mut self, target: Target, first: &'u Part, rest: &'u [Part]) -> Result<(), Stop>
        ensures exact { Resumes (refines (designated_of target) (tree.part_then (part_of first.now) (view.parts (map part_of rest.now))))
            nothing result self.old self.new }
        ensures same { IsSameProcess self.old self.new }
    {
        match first {
            Part::Field(field) => self.refine_field(target, *field, rest),
            Part::Index(e, line) => self.refine_index(target, e, *line, rest),
        }
    }

    fn refine_field(&mut self, target: Target, field: u32, rest: &'u [Part]) -> Result<(), Stop>
        ensures exact { Resumes (refines (designated_of target) (tree.part_then (tree.field field) (view.parts (map part_of rest.now))))
            nothing result self.old self.new }
        ensures same { IsSameProcess self.old self.new }
    {
        let mut target = target;
        add(&mut target.at.path, field)?;
        target.of = field_type(self.unit, target.of, field);
        self.put(Frame::Refines(target, rest))
    }

    fn refine_index(
        &mut self,
        target: Target,
        e: &'u Value,
        line: u16,
        rest: &'u [Part],
    ) -> Result<(), Stop>
        ensures exact { Resumes (refines (designated_of target) (tree.part_then (tree.index (expression_of e.now) line) (view.parts (map part_of rest.now))))
            nothing result self.old self.new }
        ensures same { IsSameProcess self.old self.new }
    {
        self.put_two(Frame::Indexes(target, line, rest), Frame::Evaluates(e))
    }

    fn index(
        &mut self,
        target: Target,
        line: u16,
        parts: &'u [Part],
        given: Given,
    ) -> Result<(), Stop>
        ensures exact { Resumes (indexes (designated_of target) line (view.parts (map part_of parts.now))) (given_of given) result self.old self.new }
        ensures same { IsSameProcess self.old self.new }
    {
        let mut target = target;
        let n = ordinal(&value_in(given)?);
        if target.of >= self.unit.types.len() {
            return Err(Stop::NoMemory);
        }
        let Shape::Array {
            lo,
            hi,
            element,
            ..
        } = self.unit.types.shape(target.of)
        else {
            return Err(Stop::NoMemory);
        };
        if n < *lo || n > *hi {
            return Err(Stop::Failed(Cause::Range, line));
        }
        add(&mut target.at.path, u32::from(n.abs_diff(*lo)))?;
        target.of = *element;
        self.put(Frame::Refines(target, parts))
    }

    fn load(&mut self, given: Given) -> Result<(), Stop>
        ensures exact { Resumes loads (given_of given) result self.old self.new }
        ensures same { IsSameProcess self.old self.new }
    {
        let target = place_in(given)?;
        let Some(value) = self.memory.get(&target.at) else {
            return Err(Stop::NoMemory);
        };
        let value = value.copy(self.alloc)?;
        self.give(value);
        Ok(())
    }
}
