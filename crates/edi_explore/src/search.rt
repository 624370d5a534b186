//! The search.

ghost use Rattle.std.specs.Prelude.{◌≡◌, ◌+◌, ◌<◌, ◌≤◌, ℕ, suc, true, length, None, Some, IsSome, IfErr, IfOk, IfSome};
ghost use Rattle.edi_told.specs.Told.{WhereTold};
ghost use Rattle.edi_unit.specs.Tree.{ProgramUnit};
ghost use Rattle.edi_disjoint.specs.steps.Inner.{InnerStepsKeep};
ghost use Rattle.edi_follows.specs.Theorem.{CanBeCoded};
ghost use Rattle.edi_explored.specs.Reached.{AreAll, AreAllBelow, AreAllShown, AreAllShownBelow};
ghost use Rattle.edi_explored.specs.Within.{MakeFewer};
ghost use Rattle.edi_explored.specs.machine.Kernels.{IsUnitCode};
ghost use Rattle.edi_orders.specs.Orders.{AreAllBySteps, AreCalm};
ghost use Rattle.edi_explore.specs.Expand.{ComesTo, HasExpanded, IsSearch};
ghost use Rattle.edi_explore.specs.Fewest.{AreFewest, AreUpTo, AreWithin};
ghost use Rattle.edi_explore.specs.Finding.{Finds, FindsAt, IsBegun};
ghost use Rattle.edi_explore.specs.Found.{AllTellWaits, AreNeverBad, AreRecorded, endings_of};
ghost use Rattle.edi_explore.specs.Links.{HaveRanks};
ghost use Rattle.edi_explore.specs.Offline.{offline};
ghost use Rattle.edi_explore.specs.Shown.{AreDistinct, HasMany, asks_of, shown_endings_of};
ghost use Rattle.edi_explore.specs.Verdicts.{HasCause, HasFirst, IsAnswer, IsUpTo, IsWholeIf, or_else, verdict_of, verdict_of_given_up};
ghost use Rattle.edi_explore.specs.Watched.{IsWatched, SeesLevel};

use crate::cut::confirmed;
use crate::ends::{Limits, Report, Verdict};
use crate::expand::Expanded;
use crate::finding::{Met, Search};
use crate::ranks::longest;
use crate::states::{Link, Origin, START};
use crate::step::{Followed, GivenUp, settle};
use crate::watch::Watcher;
use edi_kernel::Kernel;
use edi_target::Code;
use std::alloc::{AllocError, Global};

impl Expanded {
    /// The verdict where all executions of fewer moves were followed, and these.
    fn verdict(self, moves: usize) -> Verdict
        ensures { result ≡ verdict_of self moves }
    {
        match self {
            Expanded::Whole => Verdict::All,
            Expanded::Cut => Verdict::Cut(moves),
            Expanded::Unrecorded => Verdict::Unrecorded(moves),
        }
    }
}

impl GivenUp {
    /// The verdict where all executions of fewer moves were followed before the search was given up.
    fn verdict(self, moves: usize) -> Verdict
        ensures { result ≡ verdict_of_given_up self moves }
    {
        match self {
            GivenUp::Full => Verdict::Full(moves),
            GivenUp::Many => Verdict::Many(moves),
            GivenUp::NoMemory => Verdict::NoMemory(moves),
        }
    }
}

impl Verdict {
    /// This verdict, or the other one where this one says that nothing is lacking.
    fn or(self, other: Verdict) -> Verdict
        ensures { result ≡ or_else self other }
    {
        match self {
            Verdict::All => other,
            Verdict::Full(moves) => Verdict::Full(moves),
            Verdict::Many(moves) => Verdict::Many(moves),
            Verdict::Cut(moves) => Verdict::Cut(moves),
            Verdict::Unrecorded(moves) => Verdict::Unrecorded(moves),
            Verdict::NoMemory(moves) => Verdict::NoMemory(moves),
        }
    }
}

/// A number above the ranks of so many states, where this verdict says that all were followed.
fn longest_if(alloc: Global, verdict: Verdict, links: &[Link], count: usize) -> Option<usize>
    ensures ranks { IfSome result (λ moves. (verdict ≡ Verdict.All) × HaveRanks links.now count moves) }
{
    match verdict {
        Verdict::All => longest(alloc, links, count),
        _ => None,
    }
}

impl Search {
    /// Follows the first stint, behind the entry of the program.
    fn begin(
        &mut self,
        kernel: &mut Kernel,
        code: &Code,
        input: &[u8],
        limits: Limits,
    ) -> Result<Expanded, GivenUp>
        requires new { IsBegun input.now self.old }
        ensures finds { FindsAt code.now input.now limits self.old self.new }
        ensures begins { IfOk result (λ expanded.
            ComesTo code.now input.now limits self.old self.new expanded (HasFirst code.now input.now limits self.new)) }
        ensures full { IfErr result (λ given_up. given_up ≡ GivenUp.Full → limits.states ≤ length self.new.states.keys.keys) }
        ensures many { IfErr result (λ given_up. given_up ≡ GivenUp.Many → HasMany limits self.new.found.items) }
        ensures few { length self.new.states.keys.keys ≤ limits.states }
    {
        kernel.start(code);
        let end = kernel.stint(code, &mut self.calls, limits.turns);
        let _whole = kernel.word(0);
        let origin = Origin {
            state: START,
            index: 0,
        };
        let alloc = self.calls.alloc;
        let followed = settle(
            alloc,
            &mut self.states,
            kernel,
            &self.calls,
            origin,
            end,
            limits,
        )?;
        match followed {
            Followed::Led => Ok(Expanded::Whole),
            Followed::Failed => Ok(Expanded::Whole),
            Followed::Cut => Ok(Expanded::Cut),
            Followed::Ended(ending) => {
                let met = Met {
                    ending,
                    shown: self.calls.shown_if(limits.asks())?,
                };
                let told = self.record(kernel, code, input, limits, met, Vec::new(alloc))?;
                Ok(Expanded::by_record(told))
            }
        }
    }

    /// Expands each of the states from this one on that are there before the call. After each the watcher is told how many there are.
    fn level<W: Watcher>(
        &mut self,
        kernel: &mut Kernel,
        code: &Code,
        input: &[u8],
        from: usize,
        limits: Limits,
        watcher: &mut W,
    ) -> Result<Expanded, GivenUp>
        requires search { IsSearch code.now input.now limits self.old }
        requires few { length self.old.states.keys.keys ≤ limits.states }
        requires from { from ≤ length self.old.states.keys.keys }
        ensures finds { FindsAt code.now input.now limits self.old self.new }
        ensures expands { IfOk result (λ expanded. ComesTo code.now input.now limits self.old self.new expanded
            ((v : ℕ) → from ≤ v → v < length self.old.states.keys.keys → HasExpanded code.now input.now limits self.new v)) }
        ensures watches { WhereTold (W.seen watcher.old) (W.seen watcher.new)
            (SeesLevel result from (length self.old.states.keys.keys) (length self.new.states.keys.keys + 1)) }
        ensures full { IfErr result (λ given_up. given_up ≡ GivenUp.Full → limits.states ≤ length self.new.states.keys.keys) }
        ensures many { IfErr result (λ given_up. given_up ≡ GivenUp.Many → HasMany limits self.new.found.items) }
        ensures few { length self.new.states.keys.keys ≤ limits.states }
        ensures grows { length self.old.states.keys.keys ≤ length self.new.states.keys.keys }
    {
        let mut expanded = Expanded::Whole;
        for state in from..self.states.len() {
            match self.expand(kernel, code, input, state, limits) {
                Ok(more) => expanded = expanded.and(more),
                Err(given_up) => return Err(given_up),
            }
            watcher.tell(self.states.total());
        }
        Ok(expanded)
    }

    /// Expands level after level, each of the states that as many moves lead to, until there is no other.
    fn levels<W: Watcher>(
        &mut self,
        kernel: &mut Kernel,
        code: &Code,
        input: &[u8],
        limits: Limits,
        watcher: &mut W,
    ) -> Verdict
        requires search { IsSearch code.now input.now limits self.old }
        requires few { length self.old.states.keys.keys ≤ limits.states }
        requires begun { HasFirst code.now input.now limits self.old }
        requires fewest { AreFewest code.now input.now limits Verdict.All self.old.found.items }
        requires first { AreUpTo 0 self.old.found.items }
        ensures finds { Finds code.now input.now limits self.old.found.items self.new.found.items }
        ensures answer { IsAnswer code.now input.now limits (length self.new.states.keys.keys) self.new.found.items result }
        ensures fewest { AreFewest code.now input.now limits result self.new.found.items }
        ensures within { AreWithin result self.new.found.items }
        ensures watches { WhereTold (W.seen watcher.old) (W.seen watcher.new) (IsWatched result (limits.states + 1) (length self.new.states.keys.keys + 1)) }
        ensures whole { IsWholeIf code.now input.now limits result self.new }
        ensures few { length self.new.states.keys.keys ≤ limits.states }
    {
        let mut verdict = Verdict::All;
        let mut from = 0;
        for depth in 0..limits.states as usize + 1 {
            let to = self.states.len();
            if from == to {
                return verdict;
            }
            self.moves = depth + 1;
            match self.level(kernel, code, input, from, limits, watcher) {
                Ok(expanded) => {
                    verdict = verdict.or(expanded.verdict(depth + 1));
                    from = to;
                }
                Err(given_up) => return verdict.or(given_up.verdict(depth + 1)),
            }
        }
        verdict.or(Verdict::Full(limits.states as usize + 2))
    }

    /// Follows all choices.
    fn follow_all<W: Watcher>(
        &mut self,
        kernel: &mut Kernel,
        code: &Code,
        input: &[u8],
        limits: Limits,
        watcher: &mut W,
    ) -> Verdict
        requires new { IsBegun input.now self.old }
        ensures finds { Finds code.now input.now limits self.old.found.items self.new.found.items }
        ensures answer { IsAnswer code.now input.now limits (length self.new.states.keys.keys) self.new.found.items result }
        ensures fewest { AreFewest code.now input.now limits result self.new.found.items }
        ensures within { AreWithin result self.new.found.items }
        ensures watches { WhereTold (W.seen watcher.old) (W.seen watcher.new) (IsWatched result (limits.states + 1) (length self.new.states.keys.keys + 1)) }
        ensures whole { IsWholeIf code.now input.now limits result self.new }
        ensures few { length self.new.states.keys.keys ≤ limits.states }
    {
        match self.begin(kernel, code, input, limits) {
            Ok(Expanded::Whole) => self.levels(kernel, code, input, limits, watcher),
            Ok(Expanded::Cut) => Verdict::Cut(0),
            Ok(Expanded::Unrecorded) => Verdict::Unrecorded(0),
            Err(given_up) => given_up.verdict(0),
        }
    }

    /// What was found, with this verdict. The first verdict is that of the search: where it is that all were followed, the number of moves is told,
    /// unless a stint leads back to a state from which others led there, or memory runs out.
    fn report(self, first: Verdict, verdict: Verdict) -> Report
        ensures found { result.found ≡ self.found }
        ensures verdict { result.verdict ≡ verdict }
        ensures cut { result.cut ≡ self.cut }
        ensures states { result.states ≡ length self.states.keys.keys + 1 }
        ensures longest { IfSome result.longest (λ moves. (first ≡ Verdict.All) × HaveRanks self.states.links.items (length self.states.keys.keys) moves) }
    {
        let alloc = self.calls.alloc;
        let states = self.states.total();
        let count = self.states.len();
        // The states are let go before memory is asked for the ranks.
        let links = self.states.into_links();
        let longest = longest_if(alloc, first, &links, count);
        Report {
            found: self.found,
            verdict,
            states,
            cut: self.cut,
            longest,
        }
    }
}

/// Finds every ending that any choices bring about, for the program of this code with this input and no disk.
///
/// Each ending that is found has choices, which bring it about: a run of the kernel ended so with them, after as many moves as are told. No
/// execution of fewer moves ends so, as far as the verdict speaks of executions of so few: so it is a shortest one. The verdict speaks of these
/// for each ending that is found if it is `All`, `Full` or `Many`. After a stint that was cut and after an ending without a record the search goes
/// on: so if it is another one, those of more moves than its number may not be shortest ones. The verdict says whether these are all endings, or all
/// of the executions of fewer moves than its number. A move is what a process does from when it is taken until the next one is taken; a failed attempt
/// whose conditions call no function is none. An execution that goes on for ever has no ending, and is cut by each bound on its turns. Where output is
/// looked at, an ending with other output is another ending.
///
/// Where the verdict is that a stint was cut, the choices of the report bring that about: the run with them has a stint of more turns than one may have.
/// As many states and one more were met where the verdict is that there may be no more; there are never more than these. As many endings were
/// found as may be where the verdict is `Many`; there are never more. After each state that was expanded the watcher is told a number of states. No
/// number is less than the one before it, and none is greater than the number of states in the end.
///
/// Let the verdict be `All`, and let output not be looked at. Let each ending be `done` or a standstill, and let each inner step keep to itself, unless
/// nobody else may step. Then no order of steps ends otherwise. But turns may cut an order, and a fork may fail by the limit of processes.
///
/// Where `longest` is a number, no execution makes more moves, however far one looks. Attempts that fail and mark their process are no moves: choices
/// that always take such a process again go nowhere. Where `longest` is none nothing is said.
///
/// The only error is that memory ran out before the search: memory that runs out later is a verdict.
pub fn explore<W: Watcher>(
    alloc: Global,
    kernel: &mut Kernel,
    code: &Code,
    input: &[u8],
    limits: Limits,
    watcher: &mut W,
) -> Result<Report, AllocError>
    ensures recorded { (unit : ProgramUnit) → CanBeCoded unit → IsUnitCode unit code.now →
        IfOk result (λ report. AreRecorded unit input.now report.found.items) }
    ensures good { (unit : ProgramUnit) → CanBeCoded unit → IsUnitCode unit code.now → IfOk result (λ report. AreNeverBad report.found.items) }
    ensures waits { IfOk result (λ report. AllTellWaits code.now input.now report.found.items) }
    ensures distinct { IfOk result (λ report. AreDistinct (asks_of limits) report.found.items) }
    ensures fewest { IfOk result (λ report. AreFewest code.now input.now limits report.verdict report.found.items) }
    ensures within { IfOk result (λ report. AreWithin report.verdict report.found.items) }
    ensures all { (unit : ProgramUnit) → CanBeCoded unit → IsUnitCode unit code.now →
        IfOk result (λ report. report.verdict ≡ Verdict.All → AreAll unit (offline input.now) (endings_of report.found.items)) }
    ensures by_steps { limits.shown ≡ None → (unit : ProgramUnit) → CanBeCoded unit → IsUnitCode unit code.now →
        IfOk result (λ report. report.verdict ≡ Verdict.All → AreCalm (endings_of report.found.items) → InnerStepsKeep unit (offline input.now) →
        AreAllBySteps unit (offline input.now) (endings_of report.found.items)) }
    ensures below { (unit : ProgramUnit) → CanBeCoded unit → IsUnitCode unit code.now → (moves : ℕ) →
        IfOk result (λ report. IsUpTo report.verdict moves → AreAllBelow moves unit (offline input.now) (endings_of report.found.items)) }
    ensures all_shown { IsSome limits.shown → (unit : ProgramUnit) → CanBeCoded unit → IsUnitCode unit code.now →
        IfOk result (λ report. report.verdict ≡ Verdict.All → AreAllShown unit (offline input.now) (shown_endings_of report.found.items)) }
    ensures below_shown { IsSome limits.shown → (unit : ProgramUnit) → CanBeCoded unit → IsUnitCode unit code.now → (moves : ℕ) →
        IfOk result (λ report. IsUpTo report.verdict moves → AreAllShownBelow moves unit (offline input.now) (shown_endings_of report.found.items)) }
    ensures full { (moves : ℕ) → IfOk result (λ report. report.verdict ≡ Verdict.Full moves → limits.states < report.states) }
    ensures few { IfOk result (λ report. report.states ≤ limits.states + 1) }
    ensures many { (moves : ℕ) → IfOk result (λ report. report.verdict ≡ Verdict.Many moves → HasMany limits report.found.items) }
    ensures few_found { (most : ℕ) → limits.shown ≡ Some most → IfOk result (λ report. length report.found.items ≤ most) }
    ensures watches { WhereTold (W.seen watcher.old) (W.seen watcher.new)
        (λ before now. IfOk result (λ report. IsWatched report.verdict (limits.states + 1) report.states before now)) }
    ensures cause { (unit : ProgramUnit) → CanBeCoded unit → IsUnitCode unit code.now →
        IfOk result (λ report. HasCause limits.turns unit input.now report.verdict report.cut.items) }
    ensures longest { (unit : ProgramUnit) → CanBeCoded unit → IsUnitCode unit code.now →
        IfOk result (λ report. IfSome report.longest (λ moves. MakeFewer (suc moves) unit (offline input.now))) }
{
    let mut search = Search::new(alloc, input)?;
    let first = search.follow_all(kernel, code, input, limits, watcher);
    let verdict = confirmed(alloc, kernel, code, input, &search.cut, limits.turns, first);
    Ok(search.report(first, verdict))
}
