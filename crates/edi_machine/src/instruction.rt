//! The instruction at an address.

ghost use Rattle.std.specs.Prelude.{◌≡◌, ◌<◌, ◌≤◌, ◌^◌, true, length, IfSome, IsTrue};
ghost use Rattle.edi_target.specs.Op.{address_of_words, is_allowed};
ghost use Rattle.edi_target.specs.Decode.{branches_of};
ghost use Rattle.edi_target.specs.Fetch.{fetch};
ghost use Rattle.edi_target.specs.View.{Shows, instruction_of, is_whole};

use edi_target::{Op, read_op};

/// The code address of two words.
#[inline(always)]
pub fn code_address(high: u16, low: u16) -> u32
    ensures { result ≡ address_of_words high low }
{
    u32::from(high) * 65_536 + u32::from(low)
}

/// The instruction at an address of the code, and the next address.
#[tactic(auto, using(crate::proofs::Fetching::fetched, crate::proofs::Fetching::not_fetched))]
#[inline(always)]
pub fn instruction_at(words: &[u16], at: u32) -> Option<(Op<'_>, u32)>
    requires size { length words.now < 2 ^ 32 }
    ensures exact { Shows result (fetch words.now at) }
    ensures allowed { IfSome result (λ r. is_allowed (instruction_of r.0) ≡ true) }
    ensures whole { IfSome result (λ r. IsTrue (is_whole r.0)) }
{
    match read_op(words, at) {
        Some((op, next)) => Some((op, next)),
        None => None,
    }
}

/// How many branches these words are, three words each.
#[tactic(auto, using(edi_target::proofs::Branches::branch_count))]
pub fn count_of(branches: &[u16]) -> u32
    requires { length (branches_of branches.now) < 2 ^ 16 }
    ensures { result ≡ length (branches_of branches.now) }
{
    (branches.len() / 3) as u32
}
