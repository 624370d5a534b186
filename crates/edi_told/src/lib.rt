//! The two words in which every clause about an object of the outside is written: what it tells of its
//! contents, and that its count of faults rose.
#![tactic(auto)]

ghost use Rattle.std.specs.Prelude.{◌≡◌, ◌+◌, ◌-◌, ◌^◌, ◌≤◌, min};
ghost use Rattle.edi_told.specs.Faults.{CountRose};

/// A count of faults after one more fault. It stands still at its last value, `u64::MAX`.
pub fn one_more(faults: u64) -> u64
    ensures exact { result ≡ min (faults + 1) (2 ^ 64 - 1) }
    ensures rose { CountRose faults result }
    ensures later { faults ≤ result }
{
    faults.saturating_add(1)
}
