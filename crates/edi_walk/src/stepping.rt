//! One step of one process.

ghost use Rattle.std.specs.Prelude.{◌≡◌, ◌++◌, ◌∷◌, [], List, map, None, OnOk};
ghost use Rattle.edi_told.specs.Told.{WhereTold};
ghost use Rattle.edi_calls.specs.Ends.{CallsLast};
ghost use Rattle.edi_unit.specs.Tree as tree;
ghost use Rattle.edi_unit.specs.View.{act_of, clause_of, expression_of, place_of};
ghost use Rattle.edi_unit.specs.View as view;
ghost use Rattle.edi_walk.specs.Ends.{PartBlames};
ghost use Rattle.edi_walk.specs.Machine.{IsSameProcess};
ghost use Rattle.edi_walk.specs.declared.process.Work as code_work;
ghost use Rattle.edi_walk.specs.Processes.{acts_bare, Bare, ends_branch, ends_procedure, ends_program, loops_back, piece_of, work_of};
ghost use Rattle.edi_walk.specs.Works.{Attempt, Attempted, IsCalm, Local, Statement, TurnsTo, Works, WorksHere};

use crate::evaluation::Evaluation;
use crate::frames::Frame;
use crate::process::{Asked, Standing, Work, put_branch, put_first, put_piece, put_turn};
use crate::stop::Stop;
use edi_calls::Calls;
use edi_unit::{Act, Clause, Place, Value};

impl<'u> Evaluation<'u> {
    /// One step of a process that stands so, with this work.
    pub fn local<C: Calls>(
        &mut self,
        calls: &mut C,
        standing: Standing<'u>,
        work: &mut Vec<Work<'u>>,
    ) -> Result<Asked<'u>, Stop>
        requires free { self.old.frames.items ≡ [] }
        requires working { C.failed calls.old None }
        ensures exact { WhereTold (C.state calls.old) (C.state calls.new)
            (λ s t. Local standing.entry (work_of work.old.items []) work.new.items result self.old self.new s t) }
        ensures free { OnOk result (self.new.frames.items ≡ []) }
        ensures same { IsSameProcess self.old self.new }
        ensures blame { PartBlames result (C.failed calls.new) (C.faults calls.old) (C.faults calls.new) }
        ensures lasts { CallsLast C.faults C.references C.leads calls.old calls.new }
    {
        match standing {
            Standing::Ready => self.work(calls, work),
            Standing::AtWhen(clauses) => self.attempt_at(calls, clauses),
            Standing::Waiting(_) => Err(Stop::Turns),
        }
    }

    /// An attempt at a `when`.
    fn attempt_at<C: Calls>(
        &mut self,
        calls: &mut C,
        clauses: &'u [Clause],
    ) -> Result<Asked<'u>, Stop>
        requires free { self.old.frames.items ≡ [] }
        requires working { C.failed calls.old None }
        ensures exact { WhereTold (C.state calls.old) (C.state calls.new)
            (λ s t. Attempt (view.clauses (map clause_of clauses.now)) result self.old self.new s t) }
        ensures free { OnOk result (self.new.frames.items ≡ []) }
        ensures same { IsSameProcess self.old self.new }
        ensures blame { PartBlames result (C.failed calls.new) (C.faults calls.old) (C.faults calls.new) }
        ensures lasts { CallsLast C.faults C.references C.leads calls.old calls.new }
    {
        match self.tried(calls, clauses) {
            Ok(ran) => self.attempted(clauses, ran),
            Err(stop) => Err(stop),
        }
    }

    /// After an attempt: a process whose critical phase was executed goes on, another stands after a turn at its `when`.
    fn attempted(&mut self, clauses: &'u [Clause], ran: bool) -> Result<Asked<'u>, Stop>
        requires free { self.old.frames.items ≡ [] }
        ensures exact { Attempted clauses.entry ran result self.old self.new }
        ensures free { self.new.frames.items ≡ [] }
        ensures same { IsSameProcess self.old self.new }
        ensures calm { IsCalm result }
    {
        if ran {
            return Ok(Asked::Goes);
        }
        self.after_turn(Asked::Stands(clauses))
    }

    /// What is asked after a turn.
    fn after_turn(&mut self, asked: Asked<'u>) -> Result<Asked<'u>, Stop>
        requires free { self.old.frames.items ≡ [] }
        ensures exact { TurnsTo asked.entry result self.old self.new }
        ensures free { self.new.frames.items ≡ [] }
        ensures same { IsSameProcess self.old self.new }
        ensures calm { IsCalm result }
    {
        match self.turn() {
            Ok(()) => Ok(asked),
            Err(stop) => Err(stop),
        }
    }

    /// The next piece of work.
    fn work<C: Calls>(&mut self, calls: &mut C, work: &mut Vec<Work<'u>>) -> Result<Asked<'u>, Stop>
        requires free { self.old.frames.items ≡ [] }
        requires working { C.failed calls.old None }
        ensures exact { WhereTold (C.state calls.old) (C.state calls.new)
            (λ s t. Works (work_of work.old.items []) work.new.items result self.old self.new s t) }
        ensures free { OnOk result (self.new.frames.items ≡ []) }
        ensures same { IsSameProcess self.old self.new }
        ensures blame { PartBlames result (C.failed calls.new) (C.faults calls.old) (C.faults calls.new) }
        ensures lasts { CallsLast C.faults C.references C.leads calls.old calls.new }
    {
        match work.pop() {
            Some(piece) => self.piece(calls, piece, work),
            None => Err(Stop::Turns),
        }
    }

    /// A piece of work that was taken from the list.
    fn piece<C: Calls>(
        &mut self,
        calls: &mut C,
        piece: Work<'u>,
        work: &mut Vec<Work<'u>>,
    ) -> Result<Asked<'u>, Stop>
        requires free { self.old.frames.items ≡ [] }
        requires working { C.failed calls.old None }
        ensures exact { WhereTold (C.state calls.old) (C.state calls.new)
            (λ s t. Works (piece_of piece.entry ++ work_of work.old.items []) work.new.items result self.old self.new s t) }
        ensures free { OnOk result (self.new.frames.items ≡ []) }
        ensures same { IsSameProcess self.old self.new }
        ensures blame { PartBlames result (C.failed calls.new) (C.faults calls.old) (C.faults calls.new) }
        ensures lasts { CallsLast C.faults C.references C.leads calls.old calls.new }
    {
        match piece {
            Work::Doing(first, rest) => self.first_act(calls, first, rest, work),
            Work::Again(clauses) => self.looped(calls, clauses, work),
            Work::LoopEnd(clauses) => self.loop_end(clauses, work),
            Work::ProcedureEnd => self.procedure_end(),
            Work::BranchEnd => self.after_turn(Asked::Leaves),
            Work::ProgramEntry => self.program(work),
            Work::ProgramEnd => self.program_end(),
        }
    }

    /// A statement, before the others of its list.
    fn first_act<C: Calls>(
        &mut self,
        calls: &mut C,
        first: &'u Act,
        rest: &'u [Act],
        work: &mut Vec<Work<'u>>,
    ) -> Result<Asked<'u>, Stop>
        requires free { self.old.frames.items ≡ [] }
        requires working { C.failed calls.old None }
        ensures exact { WhereTold (C.state calls.old) (C.state calls.new)
            (λ s t. Statement (act_of first.now) (acts_bare (view.acts (map act_of rest.now)) ++ work_of work.old.items []) work.new.items result
            self.old self.new s t) }
        ensures free { OnOk result (self.new.frames.items ≡ []) }
        ensures same { IsSameProcess self.old self.new }
        ensures blame { PartBlames result (C.failed calls.new) (C.faults calls.old) (C.faults calls.new) }
        ensures lasts { CallsLast C.faults C.references C.leads calls.old calls.new }
    {
        match put_first(work, rest) {
            Ok(_) => self.statement(calls, first, work),
            Err(stop) => Err(stop),
        }
    }

    /// A statement, or its first part.
    fn statement<C: Calls>(
        &mut self,
        calls: &mut C,
        act: &'u Act,
        work: &mut Vec<Work<'u>>,
    ) -> Result<Asked<'u>, Stop>
        requires free { self.old.frames.items ≡ [] }
        requires working { C.failed calls.old None }
        ensures exact { WhereTold (C.state calls.old) (C.state calls.new)
            (λ s t. Statement (act_of act.now) (work_of work.old.items []) work.new.items result self.old self.new s t) }
        ensures free { OnOk result (self.new.frames.items ≡ []) }
        ensures same { IsSameProcess self.old self.new }
        ensures blame { PartBlames result (C.failed calls.new) (C.faults calls.old) (C.faults calls.new) }
        ensures lasts { CallsLast C.faults C.references C.leads calls.old calls.new }
    {
        match act {
            Act::Skip => Ok(Asked::Goes),
            Act::Assign(place, e) => self.assigned(calls, place, e),
            Act::Call(callee, arguments, line) => {
                self.called(calls, *callee, arguments.items(), *line, work)
            }
            Act::Halt(line) => Err(Stop::Halted(*line)),
            Act::If(clauses) => self.branched(calls, clauses.items(), work),
            Act::While(clauses) => self.looped(calls, clauses.items(), work),
            Act::When(clauses, _) => self.after_turn(Asked::Stands(clauses.items())),
            Act::Cobegin(branches, line) => Ok(Asked::Forks(branches.items(), *line)),
        }
    }

    /// An assignment. Its work is what is left.
    fn assigned<C: Calls>(
        &mut self,
        calls: &mut C,
        place: &'u Place,
        e: &'u Value,
    ) -> Result<Asked<'u>, Stop>
        requires free { self.old.frames.items ≡ [] }
        requires working { C.failed calls.old None }
        ensures exact { WhereTold (C.state calls.old) (C.state calls.new)
            (λ s t. (left : List code_work.Work) → Statement (tree.assign (place_of place.now) (expression_of e.now)) (work_of left []) left result self.old self.new s t) }
        ensures free { OnOk result (self.new.frames.items ≡ []) }
        ensures same { IsSameProcess self.old self.new }
        ensures blame { PartBlames result (C.failed calls.new) (C.faults calls.old) (C.faults calls.new) }
        ensures lasts { CallsLast C.faults C.references C.leads calls.old calls.new }
    {
        match self.assign_at_once(place, e) {
            Ok(made) => {
                if made {
                    Ok(Asked::Goes)
                } else {
                    self.assigned_by_frames(calls, place, e)
                }
            }
            Err(stop) => Err(stop),
        }
    }

    /// An assignment that is not made at once.
    fn assigned_by_frames<C: Calls>(
        &mut self,
        calls: &mut C,
        place: &'u Place,
        e: &'u Value,
    ) -> Result<Asked<'u>, Stop>
        requires free { self.old.frames.items ≡ [] }
        requires working { C.failed calls.old None }
        ensures exact { WhereTold (C.state calls.old) (C.state calls.new)
            (λ s t. (left : List code_work.Work) → Statement (tree.assign (place_of place.now) (expression_of e.now)) (work_of left []) left result self.old self.new s t) }
        ensures free { OnOk result (self.new.frames.items ≡ []) }
        ensures same { IsSameProcess self.old self.new }
        ensures blame { PartBlames result (C.failed calls.new) (C.faults calls.old) (C.faults calls.new) }
        ensures lasts { CallsLast C.faults C.references C.leads calls.old calls.new }
    {
        match self.both(calls, Frame::Assigns(e), Frame::Places(place)) {
            Ok(()) => Ok(Asked::Goes),
            Err(stop) => Err(stop),
        }
    }

    /// The choice of a branch of an `if`.
    fn branched<C: Calls>(
        &mut self,
        calls: &mut C,
        clauses: &'u [Clause],
        work: &mut Vec<Work<'u>>,
    ) -> Result<Asked<'u>, Stop>
        requires free { self.old.frames.items ≡ [] }
        requires working { C.failed calls.old None }
        ensures exact { WhereTold (C.state calls.old) (C.state calls.new)
            (λ s t. Statement (tree.if_act (view.clauses (map clause_of clauses.now))) (work_of work.old.items []) work.new.items result self.old self.new s t) }
        ensures free { OnOk result (self.new.frames.items ≡ []) }
        ensures same { IsSameProcess self.old self.new }
        ensures blame { PartBlames result (C.failed calls.new) (C.faults calls.old) (C.faults calls.new) }
        ensures lasts { CallsLast C.faults C.references C.leads calls.old calls.new }
    {
        match self.chosen(calls, clauses) {
            Ok(body) => put_branch(work, body),
            Err(stop) => Err(stop),
        }
    }

    /// A turn of a loop, or its end.
    fn looped<C: Calls>(
        &mut self,
        calls: &mut C,
        clauses: &'u [Clause],
        work: &mut Vec<Work<'u>>,
    ) -> Result<Asked<'u>, Stop>
        requires free { self.old.frames.items ≡ [] }
        requires working { C.failed calls.old None }
        ensures exact { WhereTold (C.state calls.old) (C.state calls.new)
            (λ s t. Statement (tree.while_act (view.clauses (map clause_of clauses.now))) (work_of work.old.items []) work.new.items result
            self.old self.new s t) }
        ensures free { OnOk result (self.new.frames.items ≡ []) }
        ensures same { IsSameProcess self.old self.new }
        ensures blame { PartBlames result (C.failed calls.new) (C.faults calls.old) (C.faults calls.new) }
        ensures lasts { CallsLast C.faults C.references C.leads calls.old calls.new }
    {
        match self.chosen(calls, clauses) {
            Ok(body) => put_turn(work, clauses, body),
            Err(stop) => Err(stop),
        }
    }

    /// The end of a loop's body, after which the loop comes again.
    fn loop_end(
        &mut self,
        clauses: &'u [Clause],
        work: &mut Vec<Work<'u>>,
    ) -> Result<Asked<'u>, Stop>
        requires free { self.old.frames.items ≡ [] }
        ensures exact { WorksHere (loops_back (view.clauses (map clause_of clauses.now)) ∷ work_of work.old.items []) work.new.items result self.old self.new }
        ensures free { self.new.frames.items ≡ [] }
        ensures same { IsSameProcess self.old self.new }
        ensures calm { IsCalm result }
    {
        match self.turn() {
            Ok(()) => put_piece(work, Work::Again(clauses)),
            Err(stop) => Err(stop),
        }
    }

    /// The end of a procedure. Its work is what is left.
    fn procedure_end(&mut self) -> Result<Asked<'u>, Stop>
        requires free { self.old.frames.items ≡ [] }
        ensures exact { (left : List code_work.Work) → WorksHere (ends_procedure ∷ work_of left []) left result self.old self.new }
        ensures free { OnOk result (self.new.frames.items ≡ []) }
        ensures same { IsSameProcess self.old self.new }
        ensures calm { IsCalm result }
    {
        match self.leave() {
            Ok(()) => Ok(Asked::Goes),
            Err(stop) => Err(stop),
        }
    }

    /// The end of the program.
    fn program_end(&mut self) -> Result<Asked<'u>, Stop>
        requires free { self.old.frames.items ≡ [] }
        ensures exact { (todo : List Bare) (left : List code_work.Work) → WorksHere (ends_program ∷ todo) left result self.old self.new }
        ensures free { self.new.frames.items ≡ [] }
        ensures same { IsSameProcess self.old self.new }
        ensures calm { IsCalm result }
    {
        match self.turn() {
            Ok(()) => Err(Stop::Done),
            Err(stop) => Err(stop),
        }
    }
}
