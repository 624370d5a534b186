//! A search over the machine. What it keeps stands for machines, and so for the states of the meaning that are related to them: where it has
//! followed the machines, its report has all endings of the program. Its laws rest on the theorem that code does what the program means.

ghost use Rattle.std.specs.Prelude.{◌≡◌, ℕ, suc, ◌^◌, List, length};
ghost use Rattle.edi_calls.specs.Choice.{listed};
ghost use Rattle.edi_calls.specs.Names.{Name};
ghost use Rattle.edi_calls.specs.Outcome.{Outcome, turns};
ghost use Rattle.edi_calls.specs.State.{State};
ghost use Rattle.edi_unit.specs.Tree.{ProgramUnit};
ghost use Rattle.edi_target.specs.Check.{CodeParts};
ghost use Rattle.edi_target.specs.Fetch.{fetch};
ghost use Rattle.edi_target.specs.Mach.{Mach, Machine};
ghost use Rattle.edi_scheme.specs.Code.{code_of};
ghost use Rattle.edi_follows.specs.Theorem.{CanBeCoded};
ghost use Rattle.edi_explored.specs.Reached.{IsReached, IsShown};
ghost use Rattle.edi_trace.specs.Drawn.{Drawn};
ghost use Rattle.edi_kernel.specs.declared.ends.Ending.{Ending};
ghost use Rattle.edi_kernel.specs.Runs.{RunsTo};
ghost use Rattle.edi_kernel.specs.Kept.{SameKept};
ghost use Rattle.edi_kernel.specs.declared.kept.Kept.{Kept};
ghost use Rattle.edi_follows.specs.places.Coded.{Coded};
ghost use Rattle.edi_explored.specs.Covered.{AllTold, AllToldBelow, Report};
ghost use Rattle.edi_explored.specs.machine.Counted.{MovesAreCounted};
ghost use Rattle.edi_explored.specs.machine.Kernels.{FollowedKernels, IsUnitCode, ReachesAs};
ghost use Rattle.edi_explored.specs.machine.Levels.{IsClosed, IsLevelled, StateTable};
ghost use Rattle.edi_explored.specs.Within.{MakeFewer};
ghost use Rattle.edi_explored.specs.machine.Ranks.{IsLinked, RanksFall};
ghost use Rattle.edi_explored.specs.machine.Machines.{FollowedMachines, ServesAs};
ghost use Rattle.edi_explored.specs.machine.PutBacks.{FollowedPutBacks};

/// What a search keeps that stands for machines, by numbers.
pub trait KeptMachines {
    /// A number stands for a machine, with these ready.
    ghost keeps: { ℕ → Machine → List Name → Type 0 };

    /// The search has it, and what fewer than so many moves lead to from there.
    ghost has: { ℕ → ℕ → Type 0 };
}

/// Where a search has followed every stint of the machines for which it keeps numbers, its report tells every ending that any choices bring about
/// in the meaning, whatever the bound; and every ending of the executions of fewer moves, where it has followed those.
pub fn machines_are_all<K: KeptMachines>()
    ensures all { (g : Coded) (system : State) (report : Report) (begin : ℕ) → FollowedMachines g system report ℕ begin K.keeps K.has →
        ((n : ℕ) → K.has n begin) → AllTold g.unit system report }
    ensures below { (g : Coded) (system : State) (report : Report) (begin most : ℕ) → FollowedMachines g system report ℕ begin K.keeps K.has →
        K.has most begin → AllToldBelow most g.unit system report }
{}

/// What a search with a kernel keeps, by numbers.
pub trait PutBack {
    /// The kernel that a number is put back into is a machine, with these ready in its order.
    ghost is: { ℕ → Machine → List Name → Type 0 };

    /// The search has it, and what fewer than so many moves lead to from there.
    ghost has: { ℕ → ℕ → Type 0 };
}

/// The same, where it has followed one stint of each ready process from what it puts back.
pub fn put_backs_are_all<P: PutBack>()
    ensures all { (g : Coded) (system : State) (report : Report) (begin : ℕ) → FollowedPutBacks g system report ℕ begin P.is P.has →
        ((n : ℕ) → P.has n begin) → AllTold g.unit system report }
    ensures below { (g : Coded) (system : State) (report : Report) (begin most : ℕ) → FollowedPutBacks g system report ℕ begin P.is P.has →
        P.has most begin → AllToldBelow most g.unit system report }
    ensures of_code { (unit : ProgramUnit) → CanBeCoded unit → (system : State) (report : Report) (begin most : ℕ) →
        ((g : Coded) → g.unit ≡ unit → g.fetched ≡ fetch (code_of unit) → FollowedPutBacks g system report ℕ begin P.is P.has) →
        (((n : ℕ) → P.has n begin) → AllTold unit system report) × (P.has most begin → AllToldBelow most unit system report) }
{}

/// What a search with a kernel keeps of states between two stints, by numbers.
pub trait Searched {
    /// The live processes.
    ghost processes: { ℕ → List Kept };

    /// The slots of those that are ready, in the order in which they were.
    ghost slots: { ℕ → List ℕ };

    /// The system that is put back.
    ghost system: { ℕ → State };

    /// The search has the start of the program, and what fewer than so many moves lead to from there.
    ghost begun: { ℕ → Type 0 };

    /// It has the state, and what fewer than so many moves lead to from there.
    ghost has: { ℕ → ℕ → Type 0 };
}

/// The same in words of the kernel alone: where a search has put back each state that it has, and has had a stint from there of each process that is
/// ready, within `bound` turns, its report tells all endings of the program.
pub fn kernels_are_all<S: Searched>()
    ensures all { (unit : ProgramUnit) → CanBeCoded unit → (code : CodeParts) → IsUnitCode unit code → (start : State) (bound : ℕ) (report : Report) →
        FollowedKernels code start bound report ℕ S.processes S.slots S.system S.begun S.has → ((n : ℕ) → S.begun n) → AllTold unit start report }
    ensures below { (unit : ProgramUnit) → CanBeCoded unit → (code : CodeParts) → IsUnitCode unit code → (start : State) (bound most : ℕ) (report : Report) →
        FollowedKernels code start bound report ℕ S.processes S.slots S.system S.begun S.has → S.begun most → AllToldBelow most unit start report }
{}

/// A breadth-first search. Where it has expanded each of its states, and these lead to no other, its report tells all endings. Where it has expanded
/// those found at depths below `depth`, it tells all of the executions that have at most `depth` moves.
pub fn expanded_is_all()
    ensures all { (unit : ProgramUnit) → CanBeCoded unit → (code : CodeParts) → IsUnitCode unit code → (start : State) (bound : ℕ) (report : Report)
        (table : StateTable) (count : ℕ) → IsClosed code start bound report table count → AllTold unit start report }
    ensures below { (unit : ProgramUnit) → CanBeCoded unit → (code : CodeParts) → IsUnitCode unit code → (start : State) (bound : ℕ) (report : Report)
        (table : StateTable) (starts : ℕ → ℕ) (depth : ℕ) → IsLevelled code start bound report table starts depth → AllToldBelow (suc depth) unit start report }
{}

/// A search that has expanded each of its states, of which it knows where their stints lead. Where each state has a rank, and the ranks fall from a
/// state to those to which it leads, no execution makes more moves than `most`, which is above the rank of each state that the first stint leads to.
pub fn ranked_is_fewer()
    ensures law { (unit : ProgramUnit) → CanBeCoded unit → (code : CodeParts) → IsUnitCode unit code → (start : State) (bound : ℕ) (report : Report)
        (table : StateTable) (count most : ℕ) (firsts : List ℕ) (targets : ℕ → List ℕ) (rank : ℕ → ℕ) →
        IsLinked code start bound report table count targets firsts → RanksFall rank count most firsts targets → MakeFewer (suc most) unit start }
{}

/// What a run of the code of a unit comes to with some choices and some bound, these choices reach in the meaning, with all that is shown, unless
/// the bound has cut it. So does a run of the kernel, which has drawn no choice before.
pub fn runs_reach()
    ensures law { (unit : ProgramUnit) → CanBeCoded unit → (system : State) (bound : ℕ) (choices : List ℕ) (outcome : Outcome) →
        Mach (fetch (code_of unit)) 0 unit.calls system bound (listed choices) outcome → (outcome.ending ≡ turns → ⊥) →
        IsReached unit system choices outcome.ending × IsShown unit system choices outcome.ending outcome.shown }
    ensures kernel { (unit : ProgramUnit) → CanBeCoded unit → (code : CodeParts) → IsUnitCode unit code → (system : State) (bound : ℕ) (choices : List ℕ)
        (old new : Drawn) → old.drawn ≡ 0 → old.source ≡ listed choices → (e : Ending) (words : List ℕ) (used : ℕ) (now : State) →
        RunsTo code system bound old e words used now new → ReachesAs unit system choices e now.shown }
{}

/// A run of the code of a unit has as many moves as the execution that the same choices select, where so many are counted in it: each time that a
/// process gives way to the next one, and leaves nobody marked.
pub fn moves_are_counted()
    ensures law { MovesAreCounted }
{}

/// Only the words that are kept count: whatever state of the meaning a machine is related to, with another memory that has the same links and
/// variables in the frames of each process it is related to that state.
pub fn kept_words_serve()
    ensures law { (g : Coded) (t : Machine) (m : List ℕ) → length m ≡ 2 ^ 16 → SameKept t t.memory m → ServesAs g t m }
{}
