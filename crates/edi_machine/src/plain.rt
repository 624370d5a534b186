//! The plain instructions: those that are executed most often, but for CALL and RETURN. Their process stays in its frame, and they make no
//! system call. Each is read, tested and executed at once by its number. Beside them the loop executes CALL and RETURN (`crossings.rt`).

ghost use Rattle.std.specs.Prelude.{◌≡◌, ◌+◌, ◌<◌, ◌≤◌, ◌^◌, ◌∷◌, ⊤, ℕ, Bool, None, false, true, drop, take, length, slice_index, MatchOption};
ghost use Rattle.edi_store.specs.Copied.{IsMemory};
ghost use Rattle.edi_machine.specs.Activities.{IsOrdered, local_of};
ghost use Rattle.edi_machine.specs.Numbers.{effect_by, is_plain_number};
ghost use Rattle.edi_machine.specs.Plain.{Looped, Plainly};
ghost use Rattle.edi_machine.specs.Steps.{Gives, effect_of};

use crate::activity::Activity;
use crate::arithmetic::{Operator, calculate, negation, other_truth};
use crate::comparisons::{Order, compare, compare_values};
use crate::constants::{check, constant, element_address, field_address, frame_address};
use crate::crossings::cross;
use crate::ends::StepEnd;
use crate::instruction::code_address;
use crate::variables::{keep, keep_word, load, load_word};
use crate::{jumps, processes};
use edi_store::Store;
use edi_target::opcode;

// The first `count` of these operands, which stand behind `at`, if there are so many. They are taken from the words themselves, so that each
// instruction asks once for its own, and the slice of all operands, which only the contract needs, is never made.
#[tactic(auto, using(crate::proofs::Commonly::none_there))]
#[inline(always)]
fn operands_of<'a>(words: &'a [u16], at: u32, count: usize, operands: &[u16]) -> Option<&'a [u16]>
    requires some { 1 ≤ count }
    requires few { count ≤ 4 }
    requires here { operands.now ≡ drop (at + 1) words.now }
    ensures exact { MatchOption result (length operands.now < count) (λ front. (count ≤ length operands.now) × (front.now ≡ take count operands.now)) }
{
    let from = at as usize + 1;
    match words.get(from..from + count) {
        Some(front) => Some(front),
        None => None,
    }
}

// The first of these operands, if there is one.
#[tactic(auto, using(crate::proofs::Commonly::one_there))]
#[inline(always)]
fn one_of(words: &[u16], at: u32, operands: &[u16]) -> Option<u16>
    requires here { operands.now ≡ drop (at + 1) words.now }
    ensures exact { MatchOption result (length operands.now < 1) (λ a. operands.now ≡ a ∷ drop 1 operands.now) }
{
    let front = operands_of(words, at, 1, operands)?;
    Some(front[0])
}

/// The first two, if there are two.
#[tactic(auto, using(crate::proofs::Commonly::two_there))]
#[inline(always)]
pub fn two_of(words: &[u16], at: u32, operands: &[u16]) -> Option<(u16, u16)>
    requires here { operands.now ≡ drop (at + 1) words.now }
    ensures exact { MatchOption result (length operands.now < 2) (λ r. operands.now ≡ r.0 ∷ r.1 ∷ drop 2 operands.now) }
{
    let front = operands_of(words, at, 2, operands)?;
    Some((front[0], front[1]))
}

// The first three, if there are three.
#[tactic(auto, using(crate::proofs::Commonly::three_there))]
#[inline(always)]
fn three_of(words: &[u16], at: u32, operands: &[u16]) -> Option<(u16, u16, u16)>
    requires here { operands.now ≡ drop (at + 1) words.now }
    ensures exact { MatchOption result (length operands.now < 3) (λ r. operands.now ≡ r.0 ∷ r.1 ∷ r.2 ∷ drop 3 operands.now) }
{
    let front = operands_of(words, at, 3, operands)?;
    Some((front[0], front[1], front[2]))
}

/// The first four, if there are four.
#[tactic(auto, using(crate::proofs::Commonly::four_there))]
#[inline(always)]
pub fn four_of(words: &[u16], at: u32, operands: &[u16]) -> Option<(u16, u16, u16, u16)>
    requires here { operands.now ≡ drop (at + 1) words.now }
    ensures exact { MatchOption result (length operands.now < 4) (λ r. operands.now ≡ r.0 ∷ r.1 ∷ r.2 ∷ r.3 ∷ drop 4 operands.now) }
{
    let front = operands_of(words, at, 4, operands)?;
    Some((front[0], front[1], front[2], front[3]))
}

/// Executes the instruction of this number and these operands, where it is a plain one and a turn is left for the one that is due after it.
/// `None` tells that nothing was done.
///
/// Each of its two callers has a copy of its own, the one in a loop and the other: LLVM inlines a function that is called from one place,
/// however large it is, where the compiler drops `inline(always)` from one so large. The turns are lent, so that only the instructions
/// after which one is due look at them.
#[tactic(auto, using(crate::proofs::Plainly::plainly_more))]
pub fn execute_plain<const IN_LOOP: bool>(
    store: &mut Store,
    activity: &mut Activity,
    words: &[u16],
    number: u16,
    operands: &[u16],
    turns_left: &u64,
) -> Option<StepEnd>
    requires size { length words.now < 2 ^ 32 }
    requires room { activity.old.pc + 1 + length operands.now < 2 ^ 32 }
    requires here { operands.now ≡ drop (activity.old.pc + 1) words.now }
    requires ordered { IsOrdered activity.old }
    ensures all { let l = local_of store.old activity.old in
        MatchOption result ((store.new ≡ store.old) × (activity.new ≡ activity.old)) (λ end. (live : ℕ) (first : Bool) →
        Gives (effect_by words.now live first (number ∷ operands.now) l) end l (local_of store.new activity.new)) }
    ensures other { result ≡ None → 0 < turns_left.now → is_plain_number number ≡ false }
    ensures plain { MatchOption result ⊤ (λ end. Plainly turns_left.now end activity.old activity.new) }
    ensures ordered { IsOrdered activity.new }
{
    let at = activity.pc;
    let end = match number {
        opcode::CONST => match one_of(words, at, operands) {
            Some(value) => constant(store, activity, value, at + 2),
            None => StepEnd::Bad(at)
        },
        opcode::ADDRESS => match two_of(words, at, operands) {
            // Most levels are 0 or 1, which need no test that they are allowed.
            Some((0, offset)) => frame_address(store, activity, 0, offset, at + 3),
            Some((1, offset)) => frame_address(store, activity, 1, offset, at + 3),
            Some((level, offset)) => if level <= 64 {
                frame_address(store, activity, level, offset, at + 3)
            } else {
                StepEnd::Bad(at)
            },
            None => StepEnd::Bad(at)
        },
        opcode::FIELD => match one_of(words, at, operands) {
            Some(offset) => field_address(store, activity, offset, at + 2),
            None => StepEnd::Bad(at)
        },
        opcode::INDEX => match four_of(words, at, operands) {
            Some((low, high, size, line)) => if low.cast_signed() <= high.cast_signed() {
                element_address(
                    store,
                    activity,
                    low.cast_signed(),
                    high.cast_signed(),
                    size,
                    line,
                    at + 5,
                )
            } else {
                StepEnd::Bad(at)
            },
            None => StepEnd::Bad(at)
        },
        opcode::LOAD => match one_of(words, at, operands) {
            Some(1) => load_word(store, activity, at + 2),
            Some(count) => if count >= 1 {
                load(store, activity, count, at + 2)
            } else {
                StepEnd::Bad(at)
            },
            None => StepEnd::Bad(at)
        },
        opcode::STORE => match one_of(words, at, operands) {
            Some(1) => keep_word(store, activity, at + 2),
            Some(count) => if count >= 1 {
                keep(store, activity, count, at + 2)
            } else {
                StepEnd::Bad(at)
            },
            None => StepEnd::Bad(at)
        },
        opcode::ADD => match one_of(words, at, operands) {
            Some(line) => calculate(store, activity, Operator::Add, line, at + 2),
            None => StepEnd::Bad(at)
        },
        opcode::SUB => match one_of(words, at, operands) {
            Some(line) => calculate(store, activity, Operator::Sub, line, at + 2),
            None => StepEnd::Bad(at)
        },
        opcode::MUL => match one_of(words, at, operands) {
            Some(line) => calculate(store, activity, Operator::Mul, line, at + 2),
            None => StepEnd::Bad(at)
        },
        opcode::DIV => match one_of(words, at, operands) {
            Some(line) => calculate(store, activity, Operator::Div, line, at + 2),
            None => StepEnd::Bad(at)
        },
        opcode::MOD => match one_of(words, at, operands) {
            Some(line) => calculate(store, activity, Operator::Mod, line, at + 2),
            None => StepEnd::Bad(at)
        },
        opcode::NEG => match one_of(words, at, operands) {
            Some(line) => negation(store, activity, line, at + 2),
            None => StepEnd::Bad(at)
        },
        opcode::NOT => other_truth(store, activity, at + 1),
        opcode::EQ => match one_of(words, at, operands) {
            Some(count) => if count >= 1 {
                compare_values(store, activity, count, true, at + 2)
            } else {
                StepEnd::Bad(at)
            },
            None => StepEnd::Bad(at)
        },
        opcode::NE => match one_of(words, at, operands) {
            Some(count) => if count >= 1 {
                compare_values(store, activity, count, false, at + 2)
            } else {
                StepEnd::Bad(at)
            },
            None => StepEnd::Bad(at)
        },
        opcode::LT => compare(store, activity, Order::Below, at + 1),
        opcode::LE => compare(store, activity, Order::AtMost, at + 1),
        opcode::GT => compare(store, activity, Order::Above, at + 1),
        opcode::GE => compare(store, activity, Order::AtLeast, at + 1),
        opcode::CHECK => match three_of(words, at, operands) {
            Some((low, high, line)) => check(
                store,
                activity,
                low.cast_signed(),
                high.cast_signed(),
                line,
                at + 4,
            ),
            None => StepEnd::Bad(at)
        },
        opcode::JUMP => match two_of(words, at, operands) {
            Some((high, low)) => jumps::jump(store, activity, code_address(high, low)),
            None => StepEnd::Bad(at)
        },
        opcode::FALSE => match two_of(words, at, operands) {
            Some((high, low)) => jumps::jump_if_false(
                store,
                activity,
                code_address(high, low),
                at + 3,
            ),
            None => StepEnd::Bad(at)
        },
        opcode::AND => match two_of(words, at, operands) {
            Some((high, low)) => jumps::jump_and(store, activity, code_address(high, low), at + 3),
            None => StepEnd::Bad(at)
        },
        opcode::OR => match two_of(words, at, operands) {
            Some((high, low)) => jumps::jump_or(store, activity, code_address(high, low), at + 3),
            None => StepEnd::Bad(at)
        },
        opcode::LOOP => match two_of(words, at, operands) {
            Some((high, low)) => if *turns_left > 0 {
                jumps::jump_back(store, activity, code_address(high, low))
            } else {
                return None;
            },
            None => StepEnd::Bad(at)
        },
        opcode::WHEN => match one_of(words, at, operands) {
            Some(line) => if *turns_left > 0 {
                processes::arrive(store, activity, line, at + 2)
            } else {
                return None;
            },
            None => StepEnd::Bad(at)
        },
        opcode::DONE => processes::end_phase(store, activity, at + 1),
        _ => return None,
    };
    Some(end)
}

// Executes the instruction of this number and these operands, where it is one of the loop.
#[tactic(auto, using(crate::proofs::Plainly::plainly_looped, crate::proofs::Plainly::not_plain))]
#[inline(always)]
fn execute_looped(
    store: &mut Store,
    activity: &mut Activity,
    words: &[u16],
    number: u16,
    operands: &[u16],
    turns_left: &u64,
) -> Option<StepEnd>
    requires size { length words.now < 2 ^ 32 }
    requires room { activity.old.pc + 1 + length operands.now < 2 ^ 32 }
    requires here { operands.now ≡ drop (activity.old.pc + 1) words.now }
    requires ordered { IsOrdered activity.old }
    ensures all { let l = local_of store.old activity.old in
        MatchOption result ((store.new ≡ store.old) × (activity.new ≡ activity.old)) (λ end. (live : ℕ) (first : Bool) →
        Gives (effect_by words.now live first (number ∷ operands.now) l) end l (local_of store.new activity.new)) }
    ensures other { result ≡ None → 0 < turns_left.now → is_plain_number number ≡ false }
    ensures plain { is_plain_number number ≡ true → MatchOption result ⊤ (λ end. Plainly turns_left.now end activity.old activity.new) }
    ensures looped { MatchOption result ⊤ (λ end. Looped turns_left.now end activity.old activity.new) }
    ensures ordered { IsOrdered activity.new }
{
    if let Some(end) = execute_plain::<true>(store, activity, words, number, operands, turns_left) {
        return Some(end);
    }
    cross(store, activity, words, number, operands, turns_left)
}

// Executes the instruction at the front of these words, which are those of the code from the activity's `pc` on, where it is one of the loop.
#[inline(always)]
fn execute_front_plainly(
    store: &mut Store,
    activity: &mut Activity,
    words: &[u16],
    front: &[u16],
    turns_left: &u64,
) -> Option<StepEnd>
    requires size { length words.now < 2 ^ 32 }
    requires room { activity.old.pc + length front.now < 2 ^ 32 }
    requires here { front.now ≡ drop activity.old.pc words.now }
    requires ordered { IsOrdered activity.old }
    ensures all { let l = local_of store.old activity.old in
        MatchOption result ((store.new ≡ store.old) × (activity.new ≡ activity.old)) (λ end. (live : ℕ) (first : Bool) →
        Gives (effect_by words.now live first front.now l) end l (local_of store.new activity.new)) }
    ensures other { result ≡ None → 0 < turns_left.now → 0 < length front.now → is_plain_number (slice_index front.now 0) ≡ false }
    ensures plain { is_plain_number (slice_index front.now 0) ≡ true →
        MatchOption result ⊤ (λ end. Plainly turns_left.now end activity.old activity.new) }
    ensures looped { MatchOption result ⊤ (λ end. Looped turns_left.now end activity.old activity.new) }
    ensures ordered { IsOrdered activity.new }
{
    match front {
        [number, operands @ ..] => execute_looped(
            store, activity, words, *number, operands, turns_left,
        ),
        _ => None,
    }
}

/// Executes the instruction at the activity's `pc` where it is a plain one, or a CALL or RETURN as these most often are, two words of the
/// code stand behind it, and a turn is left for the one that is due after it, which is not taken here. `None` tells that nothing was done:
/// `step` executes that instruction. With a turn left and two words behind, only an instruction that is no plain one is left to it.
///
/// What it gives is told as for a step, whatever processes live; all else that `step` tells follows.
#[inline(always)]
pub fn step_plainly(
    store: &mut Store,
    activity: &mut Activity,
    words: &[u16],
    turns_left: &u64,
) -> Option<StepEnd>
    requires size { length words.now < 2 ^ 32 }
    requires ordered { IsOrdered activity.old }
    ensures exact { let before = local_of store.old activity.old in
        MatchOption result ((store.new ≡ store.old) × (activity.new ≡ activity.old)) (λ end. (live : ℕ) (first : Bool) →
        Gives (effect_of words.now live first before) end before (local_of store.new activity.new)) }
    ensures other { result ≡ None → 0 < turns_left.now → activity.old.pc + 3 ≤ length words.now
        → is_plain_number (slice_index words.now activity.old.pc) ≡ false }
    ensures plain { is_plain_number (slice_index words.now activity.old.pc) ≡ true →
        MatchOption result ⊤ (λ end. Plainly turns_left.now end activity.old activity.new) }
    ensures looped { MatchOption result ⊤ (λ end. Looped turns_left.now end activity.old activity.new) }
    ensures ordered { IsOrdered activity.new }
    ensures was_whole { IsMemory store.old }
    ensures whole { IsMemory store.new }
{
    let _was_whole = store.get(0);
    let at = activity.pc as usize;
    // The one test of the code's bounds for instructions of up to two operands: LLVM then drops theirs. One that begins in the last two
    // words of a code is left to `step`.
    if words.len() < at + 3 {
        return None;
    }
    let Some(front) = words.get(at..) else {
        return None;
    };
    let end = execute_front_plainly(store, activity, words, front, turns_left);
    let _whole = store.get(0);
    end
}
