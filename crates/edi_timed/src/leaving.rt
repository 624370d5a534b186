//! How a stint has ended.

ghost use Rattle.std.specs.Prelude.{◌≡◌, ◌≤◌, ◌+◌, ◌^◌, None, Some, IsSome, Option, false, length, true};
ghost use Rattle.edi_kernel.specs.Kernel.{ended_by, is_over};
ghost use Rattle.edi_kernel.specs.Table.{process_at, ready_slots};
ghost use Rattle.edi_machine.specs.declared.activity.Activity.{Activity};
ghost use Rattle.edi_timeline.specs.Adding.{CameFits, end_of, has_failed};
ghost use Rattle.edi_timed.specs.Ran as ran;
ghost use Rattle.edi_timed.specs.Leaving as spec;
ghost use Rattle.edi_timed.specs.Leaving.{Begins, arrived_at, left_at, spot_at, spot_in};

use crate::places::place_of;
use edi_kernel::{Ending, Kernel, Standing, StintEnd};
use edi_machine::Activity;
use edi_target::Code;
use edi_timeline::{Came, Place};

/// The frame and the address at which a process stands at a `when`.
#[derive(Clone, Copy)]
pub(crate) struct Spot {
    pub(crate) base: u32,
    pub(crate) pc: u32,
}

/// A stint before it goes: the slot of its process, the number of the others that are ready, and where it stands, if it stands at a `when`.
#[derive(Clone, Copy)]
pub(crate) struct Begun {
    pub(crate) slot: usize,
    pub(crate) others: usize,
    pub(crate) stood: Option<Spot>,
}

// Where a process with this activity stands, if it stands at a `when`.
fn spot_by(standing: Standing, activity: &Activity) -> Option<Spot>
    ensures { spot_in result ≡ spec.spot_by standing activity.now }
{
    match standing {
        Standing::AtWhen => Some(Spot {
            base: activity.base,
            pc: activity.pc,
        }),
        Standing::Ready | Standing::Waiting(_) => None,
    }
}

/// The stint of the process that is taken.
pub(crate) fn at_start(kernel: &Kernel) -> Begun
    requires taken { IsSome kernel.now.taken }
    ensures { Begins kernel.now result }
{
    let slot = kernel.taken().unwrap();
    let (standing, activity) = kernel.process(slot);
    Begun {
        slot,
        others: kernel.ready(),
        stood: spot_by(standing, &activity),
    }
}

/// How a stint has ended after which so many are ready: where there is none, the run is at a standstill.
pub(crate) fn ended_as(ready: usize, end: StintEnd) -> StintEnd
    ensures { result ≡ spec.ended_as ready end }
{
    match end {
        StintEnd::Over { .. } => end,
        StintEnd::Arrived { used } | StintEnd::Forked { used } | StintEnd::Exited { used } => {
            if ready == 0 {
                StintEnd::Over {
                    used,
                    ending: Ending::Standstill,
                }
            } else {
                end
            }
        }
    }
}

/// How the run has ended, if it has by a stint that ended so, after which so many are ready.
pub(crate) fn ending_after(ready: usize, end: StintEnd) -> Option<Ending>
    ensures { result ≡ ended_by (spec.ended_as ready end) }
{
    match end {
        StintEnd::Over { ending, .. } => Some(ending),
        StintEnd::Arrived { .. } | StintEnd::Forked { .. } | StintEnd::Exited { .. } => {
            if ready == 0 {
                Some(Ending::Standstill)
            } else {
                None
            }
        }
    }
}

// Whether a process stands where it stood.
fn is_spot(stood: Option<Spot>, activity: &Activity) -> bool
    ensures { result ≡ ran.is_spot (spot_in stood) activity.now.base activity.now.pc }
{
    match stood {
        Some(spot) => spot.base == activity.base && spot.pc == activity.pc,
        None => false,
    }
}

// A stint that has left its process at a `when`, of one that its last stint left at a `when` or not.
fn arrived(kernel: &Kernel, code: &Code, stands: bool, begun: Begun) -> Came
    requires free { kernel.now.taken ≡ None }
    ensures exact { end_of result ≡ arrived_at code.now.words kernel.now stands begun kernel.now.arrived }
    ensures fits { CameFits result }
    ensures failed { has_failed result ≡ true → stands ≡ true }
{
    let Some(activity) = kernel.standing() else {
        return Came::Arrived(Place {
            lines: [0; 5],
            many: 0,
        });
    };
    if kernel.failed() && stands && is_spot(begun.stood, &activity) {
        if kernel.marked() > 0 {
            return Came::Waited;
        }
        return Came::Tried;
    }
    Came::Arrived(place_of(kernel, code, &activity))
}

/// How a stint has ended that began so, of a process that its last stint left at a `when` or not.
pub(crate) fn came_of(
    kernel: &Kernel,
    code: &Code,
    stands: bool,
    begun: Begun,
    end: StintEnd,
) -> Came
    requires free { is_over end ≡ false → kernel.now.taken ≡ None }
    ensures exact { end_of result ≡ left_at code.now.words kernel.now stands begun end }
    ensures fits { CameFits result }
    ensures failed { has_failed result ≡ true → stands ≡ true }
{
    match end {
        StintEnd::Arrived { .. } => arrived(kernel, code, stands, begun),
        StintEnd::Forked { .. } => Came::Forked(kernel.ready().saturating_sub(begun.others) as u8),
        StintEnd::Exited { .. } => Came::Ended,
        StintEnd::Over { ending, .. } => Came::Over(ending),
    }
}
