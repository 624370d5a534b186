//! All stints from a state.

ghost use Rattle.std.specs.Prelude.{◌≡◌, ◌<◌, ◌≤◌, ◌&&◌, true, false, ℕ, length, IfErr, IfOk};
ghost use Rattle.edi_explore.specs.Expand.{Apart, ComesTo, HasExpanded, HasStintThat, IsSearch, both, by_record};
ghost use Rattle.edi_explore.specs.Finding.{FindsAt};
ghost use Rattle.edi_explore.specs.Shown.{HasMany};
ghost use Rattle.edi_explore.specs.States.{slots_of};

use crate::ends::Limits;
use crate::finding::{Met, Search};
use crate::states::Origin;
use crate::step::{Followed, GivenUp, follow};
use edi_kernel::{Ending, Kernel};
use edi_target::Code;

/// Whether all of some stints were followed.
#[derive(Clone, Copy, PartialEq, Eq)]
pub(crate) enum Expanded {
    /// All were.
    Whole,
    /// One was cut by its turns.
    Cut,
    /// One has ended in a way that has no record.
    Unrecorded,
}

impl Expanded {
    /// What is lacking of both: of the first one, or else of the other.
    pub(crate) fn and(self, other: Expanded) -> Expanded
        ensures { result ≡ both self other }
    {
        match self {
            Expanded::Whole => other,
            Expanded::Cut => Expanded::Cut,
            Expanded::Unrecorded => Expanded::Unrecorded,
        }
    }

    /// Whether an ending has a record.
    pub(crate) fn by_record(told: bool) -> Expanded
        ensures { result ≡ by_record told }
    {
        if told {
            Expanded::Whole
        } else {
            Expanded::Unrecorded
        }
    }
}

/// What came of a stint.
#[derive(Clone, Copy)]
struct Came {
    /// Whether it was followed.
    expanded: Expanded,
    /// Whether it was only an attempt that failed.
    fails: bool,
}

impl Came {
    /// Whether the stints before only failed, and this one too.
    fn fails_after(self, stands: bool) -> bool
        ensures { result ≡ (stands && self.fails) }
    {
        stands && self.fails
    }
}

impl Search {
    /// Follows the stint of the process of this origin, and finds its ending, if it ends the run.
    fn stint(
        &mut self,
        kernel: &mut Kernel,
        code: &Code,
        input: &[u8],
        origin: Origin,
        limits: Limits,
    ) -> Result<Came, GivenUp>
        requires search { IsSearch code.now input.now limits self.old }
        requires state { origin.state < length self.old.states.keys.keys }
        requires index { origin.index < length (slots_of self.old.states origin.state) }
        requires few { length self.old.states.keys.keys ≤ limits.states }
        ensures finds { FindsAt code.now input.now limits self.old self.new }
        ensures follows { IfOk result (λ came. ComesTo code.now input.now limits self.old self.new came.expanded
            (Apart code.now input.now limits self.new origin.state →
            HasStintThat code.now input.now limits self.new came.fails origin.state origin.index)) }
        ensures full { IfErr result (λ given_up. given_up ≡ GivenUp.Full → limits.states ≤ length self.new.states.keys.keys) }
        ensures many { IfErr result (λ given_up. given_up ≡ GivenUp.Many → HasMany limits self.new.found.items) }
        ensures few { length self.new.states.keys.keys ≤ limits.states }
        ensures grows { length self.old.states.keys.keys ≤ length self.new.states.keys.keys }
    {
        let followed = follow(
            self.calls.alloc,
            &mut self.states,
            kernel,
            code,
            &mut self.calls,
            origin,
            limits,
        )?;
        match followed {
            Followed::Led => Ok(Came {
                expanded: Expanded::Whole,
                fails: false,
            }),
            Followed::Failed => Ok(Came {
                expanded: Expanded::Whole,
                fails: true,
            }),
            Followed::Cut => {
                self.note_cut(origin)?;
                Ok(Came {
                    expanded: Expanded::Cut,
                    fails: false,
                })
            }
            Followed::Ended(ending) => {
                let met = Met {
                    ending,
                    shown: self.calls.shown_if(limits.asks())?,
                };
                let told = self.find(kernel, code, input, limits, met, origin)?;
                Ok(Came {
                    expanded: Expanded::by_record(told),
                    fails: false,
                })
            }
        }
    }

    /// Follows a stint of each process that is ready in a state. Where all of them only fail, that is a standstill.
    pub(crate) fn expand(
        &mut self,
        kernel: &mut Kernel,
        code: &Code,
        input: &[u8],
        state: usize,
        limits: Limits,
    ) -> Result<Expanded, GivenUp>
        requires search { IsSearch code.now input.now limits self.old }
        requires state { state < length self.old.states.keys.keys }
        requires few { length self.old.states.keys.keys ≤ limits.states }
        ensures finds { FindsAt code.now input.now limits self.old self.new }
        ensures expands { IfOk result (λ expanded.
            ComesTo code.now input.now limits self.old self.new expanded (HasExpanded code.now input.now limits self.new state)) }
        ensures full { IfErr result (λ given_up. given_up ≡ GivenUp.Full → limits.states ≤ length self.new.states.keys.keys) }
        ensures many { IfErr result (λ given_up. given_up ≡ GivenUp.Many → HasMany limits self.new.found.items) }
        ensures few { length self.new.states.keys.keys ≤ limits.states }
        ensures grows { length self.old.states.keys.keys ≤ length self.new.states.keys.keys }
    {
        let Ok(number) = u32::try_from(state) else {
            return Err(GivenUp::Full);
        };
        let mut expanded = Expanded::Whole;
        let mut stands = true;
        for index in 0..self.states.ready(state) {
            let origin = Origin {
                state: number,
                index: index as u8,
            };
            let came = self.stint(kernel, code, input, origin, limits)?;
            expanded = expanded.and(came.expanded);
            stands = came.fails_after(stands);
        }
        if !stands {
            return Ok(expanded);
        }
        let origin = Origin {
            state: number,
            index: 0,
        };
        let met = Met {
            ending: Ending::Standstill,
            shown: self.states.shown(self.calls.alloc, state)?,
        };
        let told = self.find(kernel, code, input, limits, met, origin)?;
        Ok(expanded.and(Expanded::by_record(told)))
    }
}
