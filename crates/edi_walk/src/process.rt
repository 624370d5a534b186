//! Processes: what each has to do, and how it stands.

ghost use Rattle.std.specs.Prelude.{◌++◌, ◌∷◌, [], map};
ghost use Rattle.edi_unit.specs.View as view;
ghost use Rattle.edi_unit.specs.View.{act_of, clause_of};
ghost use Rattle.edi_walk.specs.Processes.{acts_bare, loops_back, piece_of};
ghost use Rattle.edi_walk.specs.Works.{PutsChosen, PutsFirst};

use crate::lists::add;
use crate::stop::Stop;
use edi_unit::{Act, Clause};

/// What a process has to do.
#[derive(Drop)]
pub enum Work<'u> {
    /// A statement, and those after it.
    Doing(&'u Act, &'u [Act]),
    /// A loop that comes again.
    Again(&'u [Clause]),
    /// The end of a loop's body, after which the loop comes again.
    LoopEnd(&'u [Clause]),
    /// The end of a procedure.
    ProcedureEnd,
    /// The end of a branch.
    BranchEnd,
    /// The entry of the program, and its end.
    ProgramEntry,
    ProgramEnd,
}

/// How a process stands.
#[derive(Clone, Copy, Drop)]
pub enum Standing<'u> {
    Ready,
    /// At its `when`.
    AtWhen(&'u [Clause]),
    /// Until so many children have ended.
    Waiting(usize),
}

/// A process.
#[derive(Drop)]
pub struct Process<'u> {
    pub name: Vec<u64>,
    /// The words of its segment.
    pub size: u32,
    /// How often it has forked.
    pub forks: u64,
    /// What it has to do, the next at the end.
    pub work: Vec<Work<'u>>,
    pub standing: Standing<'u>,
}

/// What a step of a process asks for all processes.
#[derive(Drop)]
pub enum Asked<'u> {
    /// It goes on.
    Goes,
    /// It stands at a `when`.
    Stands(&'u [Clause]),
    /// It forks into these blocks.
    Forks(&'u [u32], u16),
    /// Its branch has ended.
    Leaves,
}

/// Statements are to do first, and then what there is; the process goes on.
pub fn put_first<'u>(work: &mut Vec<Work<'u>>, statements: &'u [Act]) -> Result<Asked<'u>, Stop>
    ensures exact { PutsFirst (acts_bare (view.acts (map act_of statements.now))) result work.old.items work.new.items }
{
    match statements {
        [] => Ok(Asked::Goes),
        [first, rest @ ..] => put_piece(work, Work::Doing(first, rest)),
    }
}

/// A piece of work is to do first, and then what there is.
pub fn put_piece<'u>(work: &mut Vec<Work<'u>>, piece: Work<'u>) -> Result<Asked<'u>, Stop>
    ensures exact { PutsFirst (piece_of piece.entry) result work.old.items work.new.items }
{
    match add(work, piece) {
        Ok(()) => Ok(Asked::Goes),
        Err(stop) => Err(stop),
    }
}

/// Statements are to do first, then a piece of work, and then what there is.
pub fn put_before<'u>(
    work: &mut Vec<Work<'u>>,
    piece: Work<'u>,
    statements: &'u [Act],
) -> Result<Asked<'u>, Stop>
    ensures exact { PutsFirst (acts_bare (view.acts (map act_of statements.now)) ++ piece_of piece.entry) result work.old.items work.new.items }
{
    match put_piece(work, piece) {
        Ok(_) => put_first(work, statements),
        Err(stop) => Err(stop),
    }
}

/// The branch that was chosen is to do first, where there is one.
pub fn put_branch<'u>(work: &mut Vec<Work<'u>>, body: Option<&'u [Act]>) -> Result<Asked<'u>, Stop>
    ensures exact { PutsChosen [] body.entry result work.old.items work.new.items }
{
    match body {
        Some(body) => put_first(work, body),
        None => Ok(Asked::Goes),
    }
}

/// The list that was chosen is to do first, where there is one, and then its loop again.
pub fn put_turn<'u>(
    work: &mut Vec<Work<'u>>,
    clauses: &'u [Clause],
    body: Option<&'u [Act]>,
) -> Result<Asked<'u>, Stop>
    ensures exact { PutsChosen (loops_back (view.clauses (map clause_of clauses.now)) ∷ []) body.entry result work.old.items work.new.items }
{
    match body {
        Some(body) => put_before(work, Work::LoopEnd(clauses), body),
        None => Ok(Asked::Goes),
    }
}
