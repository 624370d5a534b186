//! What is true of every program, by its meaning. The functions do nothing; their contracts are the laws, which speak of
//! all units, system states, bounds and choices.

ghost use Rattle.edi_meaning.specs.Attempts.{AttemptsAreOneStep, AttemptsExecute};
ghost use Rattle.edi_meaning.specs.NeverBad.{PermittedIsNeverBad, SelectionIsNeverBad};
ghost use Rattle.edi_meaning.specs.Someone.{FittingForksHaveBranches, SomeoneMayStep, StandstillIsMarked};
ghost use Rattle.edi_meaning.specs.Levels.{LevelsAreEnough};
ghost use Rattle.edi_meaning.specs.Spent.{PermittedEndsSpent, SelectionEndsSpent};
ghost use Rattle.edi_meaning.specs.Laws.{AttemptsAreWhole, CellsArePrivate, EverySelectionEnds, ParentsWait, RecordReplays, ReferencesLive};
ghost use Rattle.edi_meaning.specs.Laws.{SelectIsPermitted, SelectionsAreDetermined, StepsGoOn};

/// Critical phases are executed strictly one at a time: an attempt at a `when` is one step, which leaves its process
/// behind the whole body, or at the `when` again, and leaves the standing and the work of every other process as they were.
/// It evaluates the conditions one after another until one is true, and executes the body behind that one to its end; in
/// every order of steps it is one.
pub fn attempts_are_whole()
    ensures law { AttemptsAreWhole }
    ensures executes { AttemptsExecute }
    ensures one { AttemptsAreOneStep }
{}

/// Each program ends, by its turns at the latest, whatever the choices.
pub fn every_selection_ends()
    ensures law { EverySelectionEnds }
{}

/// An evaluation goes no deeper than turns are left: with any greater number of levels it is the same.
pub fn levels_are_enough()
    ensures law { LevelsAreEnough }
{}

/// It ends by its turns only where none is left, whatever permitted steps lead there, and so also in the execution that the
/// choices select.
pub fn ends_by_turns_spent()
    ensures permitted { PermittedEndsSpent }
    ensures selected { SelectionEndsSpent }
{}

/// No program ends as bad, whatever permitted steps end it, and so not in the execution that the choices select either: an
/// instruction without a meaning is met by code alone. This is so of every unit, also of one that breaks the static rules.
pub fn programs_are_never_bad()
    ensures permitted { PermittedIsNeverBad }
    ensures selected { SelectionIsNeverBad }
{}

/// In every state that permitted steps reach some process may step, and an execution stands still only by a failed attempt that
/// marks its process, never because nobody is ready; of every unit whose `cobegin`s have branches, as each has that fits.
pub fn someone_may_step()
    ensures fitting { FittingForksHaveBranches }
    ensures permitted { SomeoneMayStep }
    ensures selected { StandstillIsMarked }
{}

/// The choices determine the execution.
pub fn selections_are_determined()
    ensures law { SelectionsAreDetermined }
{}

/// The execution that the choices select is a permitted one: the steps of its processes, in the order in which they were
/// taken, each of a process that is ready or at its `when`, lead to its end. At a standstill they lead to a state that goes
/// on with the same system and turns, and no permitted continuation of it changes anything but the turns.
pub fn select_is_permitted()
    ensures law { SelectIsPermitted }
{}

/// The list of the choices that an execution drew gives the same execution again, step by step.
pub fn record_replays()
    ensures law { RecordReplays }
{}

/// In every state that permitted steps reach from the start, a step changes no cell but those of the process itself, of
/// its ancestors, and of the children that it makes; and of an ancestor's instances none comes or goes.
pub fn cells_are_private()
    ensures law { CellsArePrivate }
{}

/// From every state on, along whatever permitted steps: turns are only taken, never given; input is only taken; what is
/// shown and printed only follows what was before; the numbers of slots and of blocks stay; and the past of the system only
/// grows, its last state being the present one.
pub fn steps_go_on()
    ensures law { StepsGoOn }
{}

/// In every state that permitted steps reach from the start, the parent of each process but the first lives and waits, for
/// as many children as live; and a process that may go on has no children. So a fork ends when all its branches have
/// ended.
pub fn parents_wait()
    ensures law { ParentsWait }
{}

/// In every state that permitted steps reach from the start, nothing dangles: the static parent of each instance that
/// lives, and what its `var` and procedure parameters mean, live too, and are of the same process and no newer, or of an
/// ancestor.
pub fn references_live()
    ensures law { ReferencesLive }
{}
