//! Calls as steps of a process, and the program's entry.

ghost use Rattle.std.specs.Prelude.{◌≡◌, ◌∷◌, [], Err, IfOk, List, map, None, OnErr, OnOk};
ghost use Rattle.edi_told.specs.Told.{WhereTold};
ghost use Rattle.edi_calls.specs.Ends.{CallsLast};
ghost use Rattle.edi_calls.specs.Names.{with_at};
ghost use Rattle.edi_unit.specs.Need.{block_at};
ghost use Rattle.edi_unit.specs.Tree as tree;
ghost use Rattle.edi_unit.specs.View.{act_of, argument_of, unit_of};
ghost use Rattle.edi_unit.specs.View as view;
ghost use Rattle.edi_meaning.specs.Store as spec;
ghost use Rattle.edi_meaning.specs.Whole as whole;
ghost use Rattle.edi_walk.specs.declared.stop.Stop.TheVariants as stop;
ghost use Rattle.edi_walk.specs.Data.{cell_of, closure_of, spot_of};
ghost use Rattle.edi_walk.specs.Ends.{PartBlames};
ghost use Rattle.edi_walk.specs.Frames.{cells_given};
ghost use Rattle.edi_walk.specs.Machine.{given_of, IsSameProcess};
ghost use Rattle.edi_walk.specs.Memory.{store_of};
ghost use Rattle.edi_walk.specs.Processes.{enters_program, work_of};
ghost use Rattle.edi_walk.specs.Works.{CallsWith, CallsThis, CellsOf, EntersProgram, IsCalm, Statement, WorksHere};
ghost use Rattle.edi_walk.specs.declared.process.Work as code_work;
ghost use Rattle.edi_calls.specs.State.{State};

use crate::data::{Closed, Held, SpotAt};
use crate::evaluation::Evaluation;
use crate::frames::{Frame, Given};
use crate::lists::add;
use crate::process::{Asked, Work, put_before, put_first};
use crate::stop::Stop;
use edi_calls::Calls;
use edi_unit::{Act, Argument, Callee};
use std::alloc::Global;
use std::mem;

/// The calls of the system of these numbers, as what the program's parameters hold.
fn system_cells(alloc: Global, numbers: &[u8]) -> Result<Vec<Held>, Stop>
    ensures exact { IfOk result (λ cells. map cell_of cells.items ≡ map (λ n. spec.procedure (spec.system_procedure n)) numbers.now) }
    ensures err { OnErr result (result ≡ Err stop.NoMemory) }
{
    let mut cells = Vec::new(alloc);
    for number in numbers {
        add(&mut cells, Held::Procedure(Closed::System(*number)))?;
    }
    Ok(cells)
}

impl<'u> Evaluation<'u> {
    /// The statements of a block; none where there is no such block.
    pub fn body(&self, number: u32) -> &'u [Act]
        ensures exact { view.acts (map act_of result.now) ≡ (block_at (unit_of self.now.unit.now).blocks number).body }
    {
        match self.unit.blocks.get(number as usize) {
            Some(block) => block.body.items(),
            None => &[],
        }
    }

    /// The words that the process has left in a segment of this size.
    pub fn room(&self, size: u32) -> u32
        ensures exact { result ≡ spec.room size (spec.shape (store_of self.now.memory) self.now.name.items) }
    {
        self.memory.room(&self.name, size)
    }

    /// A call: the arguments first.
    pub fn called<C: Calls>(
        &mut self,
        calls: &mut C,
        callee: Callee,
        arguments: &'u [Argument],
        line: u16,
        work: &mut Vec<Work<'u>>,
    ) -> Result<Asked<'u>, Stop>
        requires free { self.old.frames.items ≡ [] }
        requires working { C.failed calls.old None }
        ensures exact { WhereTold (C.state calls.old) (C.state calls.new)
            (λ s t. Statement (tree.call callee (view.arguments (map argument_of arguments.now)) line) (work_of work.old.items []) work.new.items result
            self.old self.new s t) }
        ensures free { OnOk result (self.new.frames.items ≡ []) }
        ensures same { IsSameProcess self.old self.new }
        ensures blame { PartBlames result (C.failed calls.new) (C.faults calls.old) (C.faults calls.new) }
        ensures lasts { CallsLast C.faults C.references C.leads calls.old calls.new }
    {
        match self.cells(calls, arguments) {
            Ok(cells) => self.called_with(calls, callee, cells, line, work),
            Err(stop) => Err(stop),
        }
    }

    /// The cells of arguments.
    fn cells<C: Calls>(
        &mut self,
        calls: &mut C,
        arguments: &'u [Argument],
    ) -> Result<Vec<Held>, Stop>
        requires free { self.old.frames.items ≡ [] }
        requires working { C.failed calls.old None }
        ensures exact { WhereTold (C.state calls.old) (C.state calls.new)
            (λ s t. CellsOf (view.arguments (map argument_of arguments.now)) result self.old self.new s t) }
        ensures free { OnOk result (self.new.frames.items ≡ []) }
        ensures same { IsSameProcess self.old self.new }
        ensures blame { PartBlames result (C.failed calls.new) (C.faults calls.old) (C.faults calls.new) }
        ensures lasts { CallsLast C.faults C.references C.leads calls.old calls.new }
    {
        self.given = Given::Nothing;
        let none: Vec<Held> = Vec::new(self.alloc);
        match self.whole(calls, Frame::Collects(none, arguments)) {
            Ok(()) => Ok(self.take_cells()),
            Err(stop) => Err(stop),
        }
    }

    /// The cells that are given; none where something else is given.
    fn take_cells(&mut self) -> Vec<Held>
        ensures exact { map cell_of result.items ≡ cells_given (given_of self.old.given) }
        ensures others { self.new ≡ record self.old { given = self.new.given } }
    {
        match mem::replace(&mut self.given, Given::Nothing) {
            Given::Nothing => Vec::new(self.alloc),
            Given::Value(_) => Vec::new(self.alloc),
            Given::Place(_) => Vec::new(self.alloc),
            Given::Cells(cells) => cells,
            Given::Whether(_) => Vec::new(self.alloc),
        }
    }

    /// A call with these cells.
    fn called_with<C: Calls>(
        &mut self,
        calls: &mut C,
        callee: Callee,
        cells: Vec<Held>,
        line: u16,
        work: &mut Vec<Work<'u>>,
    ) -> Result<Asked<'u>, Stop>
        requires free { self.old.frames.items ≡ [] }
        requires working { C.failed calls.old None }
        ensures exact { WhereTold (C.state calls.old) (C.state calls.new)
            (λ s t. CallsWith callee (map cell_of cells.items) line (work_of work.old.items []) work.new.items result self.old self.new s t) }
        ensures free { OnOk result (self.new.frames.items ≡ []) }
        ensures same { IsSameProcess self.old self.new }
        ensures blame { PartBlames result (C.failed calls.new) (C.faults calls.old) (C.faults calls.new) }
        ensures lasts { CallsLast C.faults C.references C.leads calls.old calls.new }
    {
        match self.meant(callee) {
            Ok(closed) => self.called_this(calls, closed, cells, line, work),
            Err(stop) => Err(stop),
        }
    }

    /// A call of this procedure with these cells.
    fn called_this<C: Calls>(
        &mut self,
        calls: &mut C,
        closed: Closed,
        cells: Vec<Held>,
        line: u16,
        work: &mut Vec<Work<'u>>,
    ) -> Result<Asked<'u>, Stop>
        requires free { self.old.frames.items ≡ [] }
        requires working { C.failed calls.old None }
        ensures exact { WhereTold (C.state calls.old) (C.state calls.new)
            (λ s t. CallsThis (closure_of closed) (map cell_of cells.items) line (work_of work.old.items []) work.new.items result self.old self.new s t) }
        ensures free { OnOk result (self.new.frames.items ≡ []) }
        ensures same { IsSameProcess self.old self.new }
        ensures blame { PartBlames result (C.failed calls.new) (C.faults calls.old) (C.faults calls.new) }
        ensures lasts { CallsLast C.faults C.references C.leads calls.old calls.new }
    {
        match closed {
            Closed::System(number) => self.system_called(calls, number, cells, line),
            Closed::Block(number, parent) => self.block_called(number, parent, cells, line, work),
        }
    }

    /// A call of the system, which is made at once. Its work is what is left.
    fn system_called<C: Calls>(
        &mut self,
        calls: &mut C,
        number: u8,
        cells: Vec<Held>,
        line: u16,
    ) -> Result<Asked<'u>, Stop>
        requires free { self.old.frames.items ≡ [] }
        requires working { C.failed calls.old None }
        ensures exact { WhereTold (C.state calls.old) (C.state calls.new)
            (λ s t. (left : List code_work.Work) → CallsThis (spec.system_procedure number) (map cell_of cells.items) line (work_of left []) left result self.old self.new s t) }
        ensures free { OnOk result (self.new.frames.items ≡ []) }
        ensures same { IsSameProcess self.old self.new }
        ensures blame { PartBlames result (C.failed calls.new) (C.faults calls.old) (C.faults calls.new) }
        ensures lasts { CallsLast C.faults C.references C.leads calls.old calls.new }
    {
        self.given = Given::Cells(cells);
        match self.whole(calls, Frame::Asks(number, line)) {
            Ok(()) => Ok(Asked::Goes),
            Err(stop) => Err(stop),
        }
    }

    /// A call of a block: its body and its end come first.
    fn block_called(
        &mut self,
        number: u32,
        parent: SpotAt,
        cells: Vec<Held>,
        line: u16,
        work: &mut Vec<Work<'u>>,
    ) -> Result<Asked<'u>, Stop>
        requires free { self.old.frames.items ≡ [] }
        ensures exact { (s : State) → CallsThis (spec.block_procedure number (spot_of parent)) (map cell_of cells.items) line (work_of work.old.items []) work.new.items
            result self.old self.new s s }
        ensures free { OnOk result (self.new.frames.items ≡ []) }
        ensures same { IsSameProcess self.old self.new }
        ensures calm { IsCalm result }
    {
        match self.enter(number, parent, cells, line) {
            Ok(()) => put_before(work, Work::ProcedureEnd, self.body(number)),
            Err(stop) => Err(stop),
        }
    }

    /// The program's entry.
    pub fn program(&mut self, work: &mut Vec<Work<'u>>) -> Result<Asked<'u>, Stop>
        requires free { self.old.frames.items ≡ [] }
        ensures exact { WorksHere (enters_program ∷ work_of work.old.items []) work.new.items result self.old self.new }
        ensures free { OnOk result (self.new.frames.items ≡ []) }
        ensures same { IsSameProcess self.old self.new }
        ensures calm { IsCalm result }
    {
        match self.program_entered() {
            Ok(()) => put_first(work, self.body(self.unit.program)),
            Err(stop) => Err(stop),
        }
    }

    /// A turn, and then the program's instance.
    fn program_entered(&mut self) -> Result<(), Stop>
        ensures exact { EntersProgram result self.old self.new }
        ensures frames { self.new.frames ≡ self.old.frames }
        ensures same { IsSameProcess self.old self.new }
        ensures calm { IsCalm result }
    {
        match self.turn() {
            Ok(()) => self.begun(),
            Err(stop) => Err(stop),
        }
    }

    /// The first instance of the process, that of the program; its parameters are the calls of the system that it names.
    fn begun(&mut self) -> Result<(), Stop>
        ensures store { OnOk result (store_of self.new.memory ≡ with_at (store_of self.old.memory) self.old.name.items
            (whole.instance_of (unit_of self.old.unit.now) self.old.name.items self.old.size (unit_of self.old.unit.now).program ([], 0)
            (map (λ n. spec.procedure (spec.system_procedure n)) (unit_of self.old.unit.now).calls) ∷ [])) }
        ensures others { self.new ≡ record self.old { memory = self.new.memory } }
        ensures err { OnErr result (result ≡ Err stop.NoMemory) }
    {
        let cells = system_cells(self.alloc, self.unit.calls.items())?;
        let parent = SpotAt {
            name: Vec::new(self.alloc),
            depth: 0,
        };
        let instance = self.instance(self.unit.program, parent, cells)?;
        self.memory.begin(self.alloc, &self.name, instance)?;
        Ok(())
    }
}
