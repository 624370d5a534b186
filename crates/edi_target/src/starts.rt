//! Where instructions start.

ghost use Rattle.std.specs.Prelude.{◌≡◌, ◌<◌, ◌^◌, ℕ, true, false, length, IfNone};
ghost use Rattle.edi_target.specs.Check.{StartsAreSet, first_fault, is_set, operation_fault, starts_of};

use crate::code_fault::CodeFault;
use crate::read::read_op;

/// Sets the flag of each address where an instruction starts, or finds the first where none is read.
#[tactic(auto, using(crate::proofs::Places::set_first, crate::proofs::Places::set_all, crate::proofs::Places::set_fault, crate::proofs::Places::set_none))]
pub fn set_starts(words: &[u16], starts: &mut [bool]) -> Option<CodeFault>
    requires size { length words.now < 2 ^ 32 }
    requires room { length starts.old ≡ length words.now }
    requires clear { (at : ℕ) → is_set starts.old at ≡ false }
    ensures first { result ≡ first_fault (operation_fault true) (starts_of words.now) }
    ensures starts { IfNone result (StartsAreSet starts.new words.now) }
{
    let mut at = 0u32;
    while (at as usize) < words.len() {
        let Some((_, next)) = read_op(words, at) else {
            return Some(CodeFault::Operation {
                at,
                found: words[at as usize],
            });
        };
        starts[at as usize] = true;
        at = next;
    }
    None
}

/// Whether an instruction starts at an address.
pub fn is_start(starts: &[bool], at: u32) -> bool
    ensures { result ≡ is_set starts.now at }
{
    starts.get(at as usize).copied().unwrap_or(false)
}
