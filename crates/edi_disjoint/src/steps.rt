//! STEPS THAT KEEP TO THEMSELVES: what a process does with its own variables alone. No other process can tell whether such a step is done or still
//! to come, so it may be taken before the steps of all others, or after them. Laws over the meaning of programs; the functions do nothing.

ghost use Rattle.std.specs.Prelude.{ℕ};
ghost use Rattle.edi_disjoint.specs.steps.First.{OwnStepsGoFirst};
ghost use Rattle.edi_disjoint.specs.steps.Inner.{WithoutOpenUses};
ghost use Rattle.edi_disjoint.specs.steps.Own.{OwnStepsComeBefore, OwnStepsPass, TextlessStepsKeep};
ghost use Rattle.edi_disjoint.specs.steps.Plain.{PlainStepsKeep};
ghost use Rattle.edi_disjoint.specs.steps.Turns.{MoreTurnsDoTheSame};
ghost use Rattle.edi_unit.specs.Tree.{ProgramUnit};
ghost use Rattle.edi_meaning.specs.Step.{Processes};

/// A step that keeps to itself, and a step of any other process, pass by each other, in every state that permitted steps reach: after the other step the
/// process does the same; and the other one does the same, or ends the program so, where the process has done its step.
pub fn own_steps_pass()
    ensures law { OwnStepsPass }
{}

/// So of each permitted order of steps of other processes: it leads to the same, whether the step that keeps to itself comes before it or after it.
pub fn own_steps_come_before()
    ensures law { OwnStepsComeBefore }
{}

/// A step that keeps to itself goes first: if an order of steps of others and then this step lead to a state, then, with some turns more, this step
/// and then the order lead to the same state. That the second order goes on is not assumed.
pub fn own_steps_go_first()
    ensures law { OwnStepsGoFirst }
{}

/// Steps that name no variable keep to themselves: a `skip`, the arrival at a `when`, the end of a loop's body and of a procedure.
pub fn textless_steps_keep()
    ensures law { TextlessStepsKeep }
{}

/// A step keeps to itself where it goes on and its text uses only values of the process itself, and calls no function: an assignment, the call of
/// a procedure by its name, and the choice of an `if` or a `while`. It may lend any variable, and a `var` parameter, whatever that means.
pub fn plain_steps_keep()
    ensures law { PlainStepsKeep }
{}

/// With more turns left each step, and each order of permitted steps, does the same, in every state of every program. Only where turns ran out
/// nothing is said.
pub fn more_turns_do_the_same()
    ensures law { (unit : ProgramUnit) (more : ℕ) (s : Processes) → MoreTurnsDoTheSame unit more s }
{}

/// In a program without open uses each inner step keeps to itself, in every state that permitted steps reach: one of a process that is ready and goes
/// on, so that it neither arrives at a `when`, nor forks, nor ends. Only where nobody else may step nothing is said. It may call functions.
pub fn without_open_uses()
    ensures law { WithoutOpenUses }
{}
