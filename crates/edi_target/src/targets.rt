//! Where instructions lead, and where a program begins.

ghost use Rattle.std.specs.Prelude.{◌≡◌, ◌<◌, ◌^◌, ℕ, None, drop, length};
ghost use Rattle.edi_target.specs.Op.{Branch};
ghost use Rattle.edi_target.specs.Decode.{branches_of, decode};
ghost use Rattle.edi_target.specs.Check.{StartsAreSet, entry_fault, first_fault, is_entry, is_set, is_program, jump_fault, or_else, starts_of};
ghost use Rattle.edi_target.specs.Check.{targets_fault, unless};
ghost use Rattle.edi_target.specs.View.{instruction_of};
ghost use Rattle.edi_target.specs.declared.code_fault.CodeFault.TheVariants as fault;

use crate::code_fault::CodeFault;
use crate::op::Op;
use crate::read::{address, read_op};
use crate::starts::is_start;

/// The first instruction that leads where it must not.
#[tactic(auto, using(crate::proofs::Places::jump_found, crate::proofs::Places::jump_end))]
pub fn jump_fault(words: &[u16], starts: &[bool]) -> Option<CodeFault>
    requires size { length words.now < 2 ^ 32 }
    requires starts { StartsAreSet starts.now words.now }
    ensures first { result ≡ first_fault (jump_fault words.now (starts_of words.now)) (starts_of words.now) }
{
    let mut at = 0;
    while let Some((op, next)) = read_op(words, at) {
        if let Some(fault) = targets_fault(words, starts, at, &op) {
            return Some(fault);
        }
        at = next;
    }
    None
}

// The fault of an instruction, unless it keeps its rule.
fn unless(keeps: bool, at: u32, target: u32) -> Option<CodeFault>
    ensures { result ≡ or_else (unless keeps (fault.Jump at target)) None }
{
    if keeps {
        None
    } else {
        Some(CodeFault::Jump { at, target })
    }
}

fn targets_fault(words: &[u16], starts: &[bool], at: u32, op: &Op<'_>) -> Option<CodeFault>
    requires size { length words.now < 2 ^ 32 }
    requires starts { StartsAreSet starts.now words.now }
    ensures { result ≡ targets_fault words.now (starts_of words.now) at (instruction_of op.now) }
{
    match *op {
        Op::Jump { target } | Op::False { target } | Op::And { target } | Op::Or { target } => {
            unless(is_start(starts, target) && at < target, at, target)
        }
        Op::Loop { target } | Op::Retry { target } | Op::Quiet { target } => {
            unless(is_start(starts, target) && target <= at, at, target)
        }
        Op::Call { target, .. } | Op::Proc { target, .. } => {
            unless(
                is_start(starts, target) && is_entry(words, target),
                at,
                target,
            )
        }
        Op::Cobegin { branches, .. } => branches_fault(starts, at, branches),
        _ => None,
    }
}

// The first branch that does not begin at an instruction start.
fn branches_fault(starts: &[bool], at: u32, branches: &[u16]) -> Option<CodeFault>
    ensures { result ≡ first_fault (λ (b : Branch). unless (is_set starts.now b.address) (fault.Jump at b.address)) (branches_of branches.now) }
{
    let mut rest = branches;
    while let [_, high, low, behind @ ..] = rest {
        let target = address(*high, *low);
        if !is_start(starts, target) {
            return Some(CodeFault::Jump { at, target });
        }
        rest = behind;
    }
    None
}

// Whether an ENTRY is read at an address.
fn is_entry(words: &[u16], at: u32) -> bool
    requires { length words.now < 2 ^ 32 }
    ensures { result ≡ is_entry (decode (drop at words.now)) }
{
    match read_op(words, at) {
        Some((Op::Entry { .. }, _)) => true,
        _ => false,
    }
}

/// The fault of an address at which no program of `count` parameters can begin: an ENTRY of a procedure without result words, with
/// three words for each parameter, must start there.
pub fn entry_fault(words: &[u16], starts: &[bool], entry: u32, count: usize) -> Option<CodeFault>
    requires size { length words.now < 2 ^ 32 }
    requires starts { StartsAreSet starts.now words.now }
    requires number { count < 2 ^ 32 }
    ensures fault { result ≡ entry_fault words.now (starts_of words.now) entry count }
{
    if is_start(starts, entry) && is_program(words, entry, count) {
        None
    } else {
        Some(CodeFault::Jump {
            at: entry,
            target: entry,
        })
    }
}

fn is_program(words: &[u16], at: u32, count: usize) -> bool
    requires size { length words.now < 2 ^ 32 }
    requires number { count < 2 ^ 32 }
    ensures { result ≡ is_program count (decode (drop at words.now)) }
{
    match read_op(words, at) {
        Some(
            (
                Op::Entry {
                    results,
                    parameters,
                    function,
                    ..
                },
                _,
            ),
        ) => results == 0 && usize::from(parameters) == 3 * count && function == 0,
        _ => false,
    }
}
