//! Whole constructs of one process: what their frames make, read as it is wanted.

ghost use Rattle.std.specs.Prelude.{◌≡◌, [], map, None, OnOk};
ghost use Rattle.edi_told.specs.Told.{WhereTold};
ghost use Rattle.edi_calls.specs.Ends.{CallsLast};
ghost use Rattle.edi_unit.specs.Values as spec;
ghost use Rattle.edi_unit.specs.View.{clause_of, expression_of};
ghost use Rattle.edi_unit.specs.View as view;
ghost use Rattle.edi_walk.specs.Ends.{PartBlames, StopBlames};
ghost use Rattle.edi_walk.specs.Frames.{truth_given, value_given};
ghost use Rattle.edi_walk.specs.Machine.{frame_of, given_of, IsSameProcess};
ghost use Rattle.edi_walk.specs.Steps.{Chosen, Condition, Wholly};
ghost use Rattle.edi_walk.specs.Works.{Tried, WhollyBoth};

use crate::evaluation::Evaluation;
use crate::frames::{Frame, Given};
use crate::hurdle::Hurdle;
use crate::operators::{is_one, is_true};
use crate::reading::{DEPTH, read};
use crate::stop::Stop;
use edi_calls::{Calls, Cause};
use edi_unit::{Act, Clause, Value};

impl<'u> Evaluation<'u> {
    /// Does this to its end; what it makes is given.
    pub fn whole<C: Calls>(&mut self, calls: &mut C, frame: Frame<'u>) -> Result<(), Stop>
        requires free { self.old.frames.items ≡ [] }
        requires working { C.failed calls.old None }
        ensures exact { WhereTold (C.state calls.old) (C.state calls.new) (λ s t. Wholly (frame_of frame.entry) result self.old self.new s t) }
        ensures free { OnOk result (self.new.frames.items ≡ []) }
        ensures same { IsSameProcess self.old self.new }
        ensures blame { StopBlames result (C.failed calls.new) (C.faults calls.old) (C.faults calls.new) }
        ensures lasts { CallsLast C.faults C.references C.leads calls.old calls.new }
    {
        match self.put(frame) {
            Ok(()) => self.run(calls),
            Err(stop) => Err(stop),
        }
    }

    /// Whether the value that is given is the true one.
    fn truth(&self) -> bool
        ensures exact { result ≡ spec.is_true (value_given (given_of self.now.given)) }
    {
        match &self.given {
            Given::Nothing => false,
            Given::Value(value) => is_true(value),
            Given::Place(_) => false,
            Given::Cells(_) => false,
            Given::Whether(_) => false,
        }
    }

    /// Whether a condition is true.
    fn holds<C: Calls>(&mut self, calls: &mut C, e: &'u Value) -> Result<bool, Stop>
        requires free { self.old.frames.items ≡ [] }
        requires working { C.failed calls.old None }
        ensures exact { WhereTold (C.state calls.old) (C.state calls.new) (λ s t. Condition (expression_of e.now) result self.old self.new s t) }
        ensures free { OnOk result (self.new.frames.items ≡ []) }
        ensures same { IsSameProcess self.old self.new }
        ensures blame { PartBlames result (C.failed calls.new) (C.faults calls.old) (C.faults calls.new) }
        ensures lasts { CallsLast C.faults C.references C.leads calls.old calls.new }
    {
        match read(e, self, DEPTH) {
            Ok(n) => Ok(is_one(n)),
            Err(hurdle) => match hurdle {
                Hurdle::Range(line) => Err(Stop::Failed(Cause::Range, line)),
                Hurdle::Frames => self.holds_by_frames(calls, e),
            },
        }
    }

    /// Whether a condition is true that is not read at once.
    fn holds_by_frames<C: Calls>(&mut self, calls: &mut C, e: &'u Value) -> Result<bool, Stop>
        requires free { self.old.frames.items ≡ [] }
        requires working { C.failed calls.old None }
        ensures exact { WhereTold (C.state calls.old) (C.state calls.new) (λ s t. Condition (expression_of e.now) result self.old self.new s t) }
        ensures free { OnOk result (self.new.frames.items ≡ []) }
        ensures same { IsSameProcess self.old self.new }
        ensures blame { PartBlames result (C.failed calls.new) (C.faults calls.old) (C.faults calls.new) }
        ensures lasts { CallsLast C.faults C.references C.leads calls.old calls.new }
    {
        match self.whole(calls, Frame::Evaluates(e)) {
            Ok(()) => Ok(self.truth()),
            Err(stop) => Err(stop),
        }
    }

    /// The first list whose condition is true.
    pub fn chosen<C: Calls>(
        &mut self,
        calls: &mut C,
        clauses: &'u [Clause],
    ) -> Result<Option<&'u [Act]>, Stop>
        requires free { self.old.frames.items ≡ [] }
        requires working { C.failed calls.old None }
        ensures exact { WhereTold (C.state calls.old) (C.state calls.new)
            (λ s t. Chosen (view.clauses (map clause_of clauses.now)) result self.old self.new s t) }
        ensures free { OnOk result (self.new.frames.items ≡ []) }
        ensures same { IsSameProcess self.old self.new }
        ensures blame { PartBlames result (C.failed calls.new) (C.faults calls.old) (C.faults calls.new) }
        ensures lasts { CallsLast C.faults C.references C.leads calls.old calls.new }
    {
        for clause in clauses {
            match self.holds(calls, &clause.condition) {
                Ok(holds) => {
                    if holds {
                        return Ok(Some(clause.body.items()));
                    }
                }
                Err(stop) => return Err(stop),
            }
        }
        Ok(None)
    }

    /// Does these two to their end, the upper one first.
    pub fn both<C: Calls>(
        &mut self,
        calls: &mut C,
        lower: Frame<'u>,
        upper: Frame<'u>,
    ) -> Result<(), Stop>
        requires free { self.old.frames.items ≡ [] }
        requires working { C.failed calls.old None }
        ensures exact { WhereTold (C.state calls.old) (C.state calls.new)
            (λ s t. WhollyBoth (frame_of lower.entry) (frame_of upper.entry) result self.old self.new s t) }
        ensures free { OnOk result (self.new.frames.items ≡ []) }
        ensures same { IsSameProcess self.old self.new }
        ensures blame { StopBlames result (C.failed calls.new) (C.faults calls.old) (C.faults calls.new) }
        ensures lasts { CallsLast C.faults C.references C.leads calls.old calls.new }
    {
        match self.put_two(lower, upper) {
            Ok(()) => self.run(calls),
            Err(stop) => Err(stop),
        }
    }

    /// Whether a condition was true, where that is given.
    fn ran(&self) -> bool
        ensures exact { result ≡ truth_given (given_of self.now.given) }
    {
        match &self.given {
            Given::Nothing => false,
            Given::Value(_) => false,
            Given::Place(_) => false,
            Given::Cells(_) => false,
            Given::Whether(ran) => *ran,
        }
    }

    /// Executes the first list whose condition is true to its end. The answer says whether there was one.
    pub fn tried<C: Calls>(&mut self, calls: &mut C, clauses: &'u [Clause]) -> Result<bool, Stop>
        requires free { self.old.frames.items ≡ [] }
        requires working { C.failed calls.old None }
        ensures exact { WhereTold (C.state calls.old) (C.state calls.new)
            (λ s t. Tried (view.clauses (map clause_of clauses.now)) result self.old self.new s t) }
        ensures free { OnOk result (self.new.frames.items ≡ []) }
        ensures same { IsSameProcess self.old self.new }
        ensures blame { PartBlames result (C.failed calls.new) (C.faults calls.old) (C.faults calls.new) }
        ensures lasts { CallsLast C.faults C.references C.leads calls.old calls.new }
    {
        match self.whole(calls, Frame::Tries(clauses)) {
            Ok(()) => Ok(self.ran()),
            Err(stop) => Err(stop),
        }
    }
}
