//! Counts of the faults of the objects outside.

ghost use Rattle.std.specs.Prelude.{◌≡◌, ◌≤◌, ℕ};
ghost use Rattle.edi_told.specs.Faults.{CountRose};
ghost use Rattle.edi_calls.specs.declared.ends.Outside.{Outside};
ghost use Rattle.edi_memory.specs.Counts.{count_of};

use edi_calls::Outside;
use edi_told::one_more;

/// How often each object outside has failed. The counts stand still at `u64::MAX`.
#[derive(Clone, Copy, Debug, PartialEq, Eq, Drop)]
pub(crate) struct Faults {
    pub drive: u64,
    pub input: u64,
    pub terminal: u64,
    pub printer: u64,
}

impl Faults {
    /// No faults.
    pub fn new() -> Faults
        ensures { (outside : Outside) → count_of result outside ≡ 0 }
    {
        Faults {
            drive: 0,
            input: 0,
            terminal: 0,
            printer: 0,
        }
    }

    /// The count of this object.
    pub fn count(&self, outside: Outside) -> u64
        ensures { result ≡ count_of self.now outside }
    {
        match outside {
            Outside::Drive => self.drive,
            Outside::Input => self.input,
            Outside::Terminal => self.terminal,
            Outside::Printer => self.printer,
        }
    }

    /// The counts after one more fault of this object.
    #[tactic(auto, using(crate::proofs::Rising::each_later))]
    pub fn risen(self, outside: Outside) -> Faults
        ensures rose { CountRose (count_of self outside) (count_of result outside) }
        ensures later { (other : Outside) → count_of self other ≤ count_of result other }
    {
        let mut risen = self;
        match outside {
            Outside::Drive => risen.drive = one_more(risen.drive),
            Outside::Input => risen.input = one_more(risen.input),
            Outside::Terminal => risen.terminal = one_more(risen.terminal),
            Outside::Printer => risen.printer = one_more(risen.printer),
        }
        risen
    }
}
