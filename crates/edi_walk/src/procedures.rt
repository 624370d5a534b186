//! Arguments and calls, by frames.

ghost use Rattle.std.specs.Prelude.{◌≡◌, [], ◌++◌, ◌∷◌, false, true, suc, map, nat_lt, IfOk, OnErr, OnOk, Err};
ghost use Rattle.edi_unit.specs.Need.{block_at};
ghost use Rattle.edi_unit.specs.Tree as tree;
ghost use Rattle.edi_unit.specs.View as view;
ghost use Rattle.edi_unit.specs.View.{argument_of, expression_of, place_of, unit_of};
ghost use Rattle.edi_unit.specs.Values.{zero_value};
ghost use Rattle.edi_meaning.specs.Store.{grown, room, shape, shrunk, value};
ghost use Rattle.edi_meaning.specs.Whole as whole;
ghost use Rattle.edi_walk.specs.declared.stop.Stop.TheVariants as stop;
ghost use Rattle.edi_calls.specs.declared.kinds.Cause.TheVariants as cause;
ghost use Rattle.edi_walk.specs.Data.{cell_of, closure_of, spot_of, value_of};
ghost use Rattle.edi_walk.specs.Memory.{instance_of, store_of};
ghost use Rattle.edi_walk.specs.Frames.{cell_given, nothing, calls_function, calls_procedure, collects, ends_function, ends_procedure};
ghost use Rattle.edi_walk.specs.Machine.{given_of, world_of, EntersBlock, IsSameProcess, LeavesBlock, Resumes};

use crate::data::{Closed, Datum, Held, SpotAt};
use crate::evaluation::{Evaluation, cells_in};
use crate::frames::{Frame, Given};
use crate::lists::add;
use crate::memory::Activation;
use crate::stop::Stop;
use crate::zero::zero;
use edi_calls::Cause;
use edi_unit::{Argument, Callee, Place, TypeTable, Value};
use std::alloc::Global;

/// These cells, and one more.
fn with_cell(cells: Vec<Held>, cell: Held) -> Result<Vec<Held>, Stop>
    ensures exact { IfOk result (λ all. map cell_of all.items ≡ map cell_of cells.items ++ cell_of cell ∷ []) }
    ensures err { OnErr result (result ≡ Err stop.NoMemory) }
{
    let mut cells = cells;
    add(&mut cells, cell)?;
    Ok(cells)
}

/// These cells, and one more for an argument that has been made.
fn with_given(cells: Vec<Held>, given: Given) -> Result<Vec<Held>, Stop>
    ensures exact { IfOk result (λ all. map cell_of all.items ≡ map cell_of cells.items ++ cell_given (given_of given)) }
    ensures err { OnErr result (result ≡ Err stop.NoMemory) }
{
    match given {
        Given::Value(value) => with_cell(cells, Held::Value(value)),
        Given::Place(target) => with_cell(cells, Held::Location(target.at)),
        _ => Ok(cells),
    }
}

/// The function variable of a block, where it has one.
fn result_cells(alloc: Global, types: &TypeTable, of: Option<u32>) -> Result<Vec<Held>, Stop>
    ensures exact { IfOk result (λ cells. map cell_of cells.items ≡ whole.result_cells types.now of) }
    ensures err { OnErr result (result ≡ Err stop.NoMemory) }
{
    let mut cells = Vec::new(alloc);
    if let Some(of) = of {
        add(&mut cells, Held::Value(zero(alloc, types, of)?))?;
    }
    Ok(cells)
}

/// These cells, and one more for each variable of these types.
fn with_zeros(
    alloc: Global,
    types: &TypeTable,
    cells: Vec<Held>,
    variables: &[u32],
) -> Result<Vec<Held>, Stop>
    ensures exact { IfOk result (λ all. map cell_of all.items ≡ map cell_of cells.items ++ map (λ t. value (zero_value types.now t)) variables.now) }
    ensures err { OnErr result (result ≡ Err stop.NoMemory) }
{
    let mut cells = cells;
    for of in variables {
        add(&mut cells, Held::Value(zero(alloc, types, *of)?))?;
    }
    Ok(cells)
}

impl<'u> Evaluation<'u> {
    /// The arguments of a call, of which these are made.
    pub fn collect(
        &mut self,
        cells: Vec<Held>,
        more: &'u [Argument],
        given: Given,
    ) -> Result<(), Stop>
        ensures exact { Resumes (collects (map cell_of cells.items) (view.arguments (map argument_of more.now))) (given_of given) result self.old self.new }
        ensures same { IsSameProcess self.old self.new }
    {
        let cells = with_given(cells, given)?;
        self.collect_on(cells, more)
    }

    fn collect_on(&mut self, cells: Vec<Held>, more: &'u [Argument]) -> Result<(), Stop>
        ensures exact { Resumes (collects (map cell_of cells.items) (view.arguments (map argument_of more.now))) nothing result self.old self.new }
        ensures same { IsSameProcess self.old self.new }
    {
        match more {
            [] => self.collected(cells),
            [first, rest @ ..] => self.collect_next(cells, first, rest),
        }
    }

    fn collected(&mut self, cells: Vec<Held>) -> Result<(), Stop>
        ensures exact { Resumes (collects (map cell_of cells.items) tree.no_argument) nothing result self.old self.new }
        ensures same { IsSameProcess self.old self.new }
    {
        self.given = Given::Cells(cells);
        Ok(())
    }

    fn collect_next(
        &mut self,
        cells: Vec<Held>,
        first: &'u Argument,
        rest: &'u [Argument],
    ) -> Result<(), Stop>
        ensures exact { Resumes (collects (map cell_of cells.items) (tree.argument_then (argument_of first.now) (view.arguments (map argument_of rest.now))))
            nothing result self.old self.new }
        ensures same { IsSameProcess self.old self.new }
    {
        match first {
            Argument::Value(e) => self.collect_value(cells, e, rest),
            Argument::Var(place) => self.collect_place(cells, place, rest),
            Argument::Formal(callee) => self.collect_procedure(cells, *callee, rest),
        }
    }

    fn collect_value(
        &mut self,
        cells: Vec<Held>,
        e: &'u Value,
        rest: &'u [Argument],
    ) -> Result<(), Stop>
        ensures exact { Resumes (collects (map cell_of cells.items)
            (tree.argument_then (tree.by_value (expression_of e.now)) (view.arguments (map argument_of rest.now)))) nothing result self.old self.new }
        ensures same { IsSameProcess self.old self.new }
    {
        self.put_two(Frame::Collects(cells, rest), Frame::Evaluates(e))
    }

    fn collect_place(
        &mut self,
        cells: Vec<Held>,
        place: &'u Place,
        rest: &'u [Argument],
    ) -> Result<(), Stop>
        ensures exact { Resumes (collects (map cell_of cells.items)
            (tree.argument_then (tree.by_variable (place_of place.now)) (view.arguments (map argument_of rest.now)))) nothing result self.old self.new }
        ensures same { IsSameProcess self.old self.new }
    {
        self.put_two(Frame::Collects(cells, rest), Frame::Places(place))
    }

    fn collect_procedure(
        &mut self,
        cells: Vec<Held>,
        callee: Callee,
        rest: &'u [Argument],
    ) -> Result<(), Stop>
        ensures exact { Resumes (collects (map cell_of cells.items)
            (tree.argument_then (tree.by_procedure callee) (view.arguments (map argument_of rest.now)))) nothing result self.old self.new }
        ensures same { IsSameProcess self.old self.new }
    {
        let procedure = self.meant(callee)?;
        let cells = with_cell(cells, Held::Procedure(procedure))?;
        self.given = Given::Nothing;
        self.put(Frame::Collects(cells, rest))
    }

    /// The procedure that a callee means here.
    pub fn meant(&self, callee: Callee) -> Result<Closed, Stop>
        ensures exact { IfOk result (λ x. (system : _) →
            closure_of x ≡ whole.meant (unit_of self.now.unit.now) self.now.name.items self.now.size callee (world_of self.now system)) }
        ensures err { OnErr result (result ≡ Err stop.NoMemory) }
    {
        match callee {
            Callee::Block { levels, block } => {
                let Some((process, depth)) = self.memory.reached(&self.name, levels) else {
                    return Err(Stop::NoMemory);
                };
                Ok(Closed::Block(block, SpotAt::new(self.alloc, process, depth)?))
            }
            Callee::Formal { levels, variable } => {
                let Some((process, depth)) = self.memory.reached(&self.name, levels) else {
                    return Err(Stop::NoMemory);
                };
                match self.memory.cell(process, depth, variable) {
                    Some(Held::Procedure(procedure)) => Ok(procedure.copy(self.alloc)?),
                    _ => Err(Stop::NoMemory),
                }
            }
        }
    }

    /// A new instance of a block.
    pub fn instance(
        &self,
        number: u32,
        parent: SpotAt,
        arguments: Vec<Held>,
    ) -> Result<Activation, Stop>
        ensures exact { IfOk result (λ x. instance_of x
            ≡ whole.instance_of (unit_of self.now.unit.now) self.now.name.items self.now.size number (spot_of parent) (map cell_of arguments.items)) }
        ensures err { OnErr result (result ≡ Err stop.NoMemory) }
    {
        let block = self.block(number)?;
        let mut cells = result_cells(self.alloc, &self.unit.types, block.result)?;
        let mut arguments = arguments;
        cells.append(&mut arguments)?;
        let cells = with_zeros(self.alloc, &self.unit.types, cells, block.variables.items())?;
        Ok(Activation {
            block: number,
            need: block.need,
            parent,
            cells,
        })
    }

    /// A block is entered: it has to find room, and takes a turn.
    pub fn enter(
        &mut self,
        number: u32,
        parent: SpotAt,
        arguments: Vec<Held>,
        line: u16,
    ) -> Result<(), Stop>
        ensures exact { EntersBlock number (spot_of parent) (map cell_of arguments.items) line result self.old self.new }
        ensures same { IsSameProcess self.old self.new }
    {
        let block = self.block(number)?;
        if self.memory.room(&self.name, self.size) < block.need {
            return Err(Stop::Failed(Cause::VariableLimit, line));
        }
        self.turn()?;
        let instance = self.instance(number, parent, arguments)?;
        self.memory.grow(&self.name, instance)?;
        Ok(())
    }

    /// A function, with the cells of its arguments.
    pub fn call_function(&mut self, callee: Callee, line: u16, given: Given) -> Result<(), Stop>
        ensures exact { Resumes (calls_function callee line) (given_of given) result self.old self.new }
        ensures same { IsSameProcess self.old self.new }
    {
        let cells = cells_in(given)?;
        match self.meant(callee)? {
            Closed::System(_) => {
                self.give(Datum::Ordinal(0));
                Ok(())
            }
            Closed::Block(number, parent) => {
                self.enter(number, parent, cells, line)?;
                let block = self.block(number)?;
                self.put_two(Frame::EndsFunction, Frame::Performs(block.body.items()))
            }
        }
    }

    /// A procedure, with the cells of its arguments.
    pub fn call_procedure(&mut self, callee: Callee, line: u16, given: Given) -> Result<(), Stop>
        ensures exact { Resumes (calls_procedure callee line) (given_of given) result self.old self.new }
        ensures same { IsSameProcess self.old self.new }
    {
        let cells = cells_in(given)?;
        match self.meant(callee)? {
            Closed::System(number) => {
                self.given = Given::Cells(cells);
                self.put(Frame::Asks(number, line))
            }
            Closed::Block(number, parent) => {
                self.enter(number, parent, cells, line)?;
                let block = self.block(number)?;
                self.put_two(Frame::EndsProcedure, Frame::Performs(block.body.items()))
            }
        }
    }

    /// The newest instance is left after a turn.
    pub fn leave(&mut self) -> Result<(), Stop>
        ensures exact { LeavesBlock result self.old self.new }
        ensures same { IsSameProcess self.old self.new }
    {
        self.turn()?;
        if self.memory.shrink(&self.name) {
            Ok(())
        } else {
            Err(Stop::NoMemory)
        }
    }

    /// The end of a function, and its result.
    pub fn end_function(&mut self, given: Given) -> Result<(), Stop>
        ensures exact { Resumes ends_function (given_of given) result self.old self.new }
        ensures same { IsSameProcess self.old self.new }
    {
        let result = self.result()?;
        self.leave()?;
        self.give(result);
        Ok(())
    }

    /// The value of the newest instance's function variable.
    fn result(&self) -> Result<Datum, Stop>
        ensures exact { IfOk result (λ v. (system : _) →
            value_of v ≡ whole.result_of (unit_of self.now.unit.now) self.now.name.items self.now.size (world_of self.now system)) }
        ensures err { OnErr result (result ≡ Err stop.NoMemory) }
    {
        let depth = self.memory.newest(&self.name);
        match self.memory.cell(&self.name, depth, 0) {
            Some(Held::Value(value)) => Ok(value.copy(self.alloc)?),
            _ => Err(Stop::NoMemory),
        }
    }

    /// The end of a procedure.
    pub fn end_procedure(&mut self, given: Given) -> Result<(), Stop>
        ensures exact { Resumes ends_procedure (given_of given) result self.old self.new }
        ensures same { IsSameProcess self.old self.new }
    {
        let _ = given;
        self.given = Given::Nothing;
        self.leave()
    }
}
