//! CALL and RETURN as they most often are, in the loop of plain instructions: a turn is left, a CALL leads to an allowed ENTRY, and a
//! RETURN leaves a frame that is not the first of its process. All others are left to `step`.

ghost use Rattle.std.specs.Prelude.{◌≡◌, Some, ◌+◌, ◌<◌, ◌≤◌, ◌^◌, ◌∷◌, ⊤, ℕ, Bool, false, drop, take, if◌then◌else◌, nat_eq, length, IfSome, MatchOption};
ghost use Rattle.edi_target.specs.Op as op;
ghost use Rattle.edi_target.specs.Fetch.{fetch};
ghost use Rattle.edi_target.specs.Memory.{level, word};
ghost use Rattle.edi_target.specs.Effect.{Local, due, enter, finishing, needs};
ghost use Rattle.edi_target.specs.Perform.{leave};
ghost use Rattle.edi_machine.specs.Activities.{IsOrdered, local_of};
ghost use Rattle.edi_machine.specs.Numbers.{effect_by, is_plain_number};
ghost use Rattle.edi_machine.specs.Plain.{Looped};
ghost use Rattle.edi_machine.specs.Steps.{Gives};

use crate::activity::Activity;
use crate::ends::StepEnd;
use crate::frame::level_base;
use crate::instruction::code_address;
use crate::plain::{four_of, two_of};
use crate::procedures::{Block, enter_block, leave_frame};
use edi_store::Store;
use edi_target::opcode;

// The six words at this address of the code, if there are so many.
#[inline(always)]
fn six_at(words: &[u16], at: u32) -> Option<&[u16]>
    requires size { length words.now < 2 ^ 32 }
    ensures exact { IfSome result (λ front. (front.now ≡ take 6 (drop at words.now)) × (6 ≤ length (drop at words.now))) }
    ensures within { IfSome result (λ front. (length front.now ≡ 6) × (at + 6 < 2 ^ 32)) }
{
    let from = at as usize;
    match words.get(from..from + 6) {
        Some(front) => Some(front),
        None => None,
    }
}

// The block of the ENTRY at this address of the code, if there is one and it is allowed.
#[tactic(auto, using(crate::proofs::Fetching::entry_there))]
#[inline(always)]
fn block_at(words: &[u16], target: u32) -> Option<Block>
    requires size { length words.now < 2 ^ 32 }
    ensures exact { IfSome result (λ b. fetch words.now target ≡ Some (op.entry b.need b.results b.parameters b.variables b.function, b.body)) }
    ensures fits { IfSome result (λ b. 5 + b.results + b.parameters + b.variables ≤ b.need) }
    ensures small { IfSome result (λ b. b.need < 2 ^ 16) }
    ensures function { IfSome result (λ b. b.function ≤ 1) }
{
    let Some(front) = six_at(words, target) else {
        return None;
    };
    if front[0] != opcode::ENTRY {
        return None;
    }
    let block = Block {
        need: u32::from(front[1]),
        results: u32::from(front[2]),
        parameters: u32::from(front[3]),
        variables: u32::from(front[4]),
        function: front[5],
        body: target + 6,
    };
    if block.function > 1 {
        return None;
    }
    if 5 + block.results + block.parameters + block.variables > block.need {
        return None;
    }
    Some(block)
}

// CALL of a block that is found at once.
#[inline(always)]
fn call_block(
    store: &mut Store,
    activity: &mut Activity,
    words: &[u16],
    count: u16,
    target: u32,
    line: u16,
    next: u32,
) -> Option<StepEnd>
    requires size { length words.now < 2 ^ 32 }
    requires ordered { IsOrdered activity.old }
    ensures exact { let l = local_of store.old activity.old in
        MatchOption result ((store.new ≡ store.old) × (activity.new ≡ activity.old)) (λ end.
        Gives (enter (fetch words.now target) (level l.memory count l.base) next line l) end l (local_of store.new activity.new)) }
    ensures looped { MatchOption result ⊤ (λ end. Looped 1 end activity.old activity.new) }
    ensures ordered { IsOrdered activity.new }
{
    let Some(block) = block_at(words, target) else {
        return None;
    };
    let link = level_base(store, count, activity.base as u16);
    Some(enter_block(store, activity, block, link, line, next))
}

// RETURN from a frame that is not the first of its process.
#[inline(always)]
fn leave_called(
    store: &mut Store,
    activity: &mut Activity,
    results: u16,
    function: u16,
) -> Option<StepEnd>
    requires ordered { IsOrdered activity.old }
    ensures exact { let l = local_of store.old activity.old in
        let x = word l.memory (l.base + 1) in
        let t = word l.memory (l.base + 4) in
        MatchOption result ((store.new ≡ store.old) × (activity.new ≡ activity.old)) (λ end. (first : Bool) →
        Gives (if nat_eq l.base l.first then needs first (due finishing l) else leave results function x t l) end l (local_of store.new activity.new)) }
    ensures looped { MatchOption result ⊤ (λ end. Looped 1 end activity.old activity.new) }
    ensures ordered { IsOrdered activity.new }
{
    if activity.base == activity.segment.first {
        return None;
    }
    Some(leave_frame(store, activity, u32::from(results), function))
}

/// Executes the instruction of this number and these operands, where it is a CALL or a RETURN as these most often are and a turn is left.
/// `None` tells that nothing was done.
#[tactic(auto, using(crate::proofs::Plainly::looped_left, crate::proofs::Plainly::whichever))]
#[inline(always)]
pub fn cross(
    store: &mut Store,
    activity: &mut Activity,
    words: &[u16],
    number: u16,
    operands: &[u16],
    turns_left: &u64,
) -> Option<StepEnd>
    requires size { length words.now < 2 ^ 32 }
    requires room { activity.old.pc + 1 + length operands.now < 2 ^ 32 }
    requires here { operands.now ≡ drop (activity.old.pc + 1) words.now }
    requires ordered { IsOrdered activity.old }
    ensures all { let l = local_of store.old activity.old in
        MatchOption result ((store.new ≡ store.old) × (activity.new ≡ activity.old)) (λ end. (live : ℕ) (first : Bool) →
        Gives (effect_by words.now live first (number ∷ operands.now) l) end l (local_of store.new activity.new)) }
    ensures apart { MatchOption result ⊤ (λ _. is_plain_number number ≡ false) }
    ensures looped { MatchOption result ⊤ (λ end. Looped turns_left.now end activity.old activity.new) }
    ensures ordered { IsOrdered activity.new }
{
    if *turns_left == 0 {
        return None;
    }
    let at = activity.pc;
    match number {
        opcode::CALL => match four_of(words, at, operands) {
            Some((level, high, low, line)) => if level <= 64 {
                call_block(
                    store,
                    activity,
                    words,
                    level,
                    code_address(high, low),
                    line,
                    at + 5,
                )
            } else {
                None
            },
            None => None
        },
        opcode::RETURN => match two_of(words, at, operands) {
            Some((results, function)) => if function <= 1 {
                leave_called(store, activity, results, function)
            } else {
                None
            },
            None => None
        },
        _ => None,
    }
}
