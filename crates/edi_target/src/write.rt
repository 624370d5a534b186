//! How instructions are written.

ghost use Rattle.std.specs.Prelude.{◌≡◌, ◌&&◌, ℕ, ◌+◌, ◌<◌, ◌^◌, ◌/◌, ◌%◌, ◌++◌, List, true, length, vec_len, IsTrue, OnOk, OnErr};
ghost use Rattle.edi_target.specs.Op.{cobegin, has_integers, high_word, is_allowed, is_integer, low_word, words_of};
ghost use Rattle.edi_target.specs.Decode.{branches_of};
ghost use Rattle.edi_target.specs.Reading.{Reads};
ghost use Rattle.edi_target.specs.View.{instruction_of, is_whole};

use crate::op::Op;
use crate::opcode;
use std::alloc::{AllocError, Global};

fn high(target: u32) -> u16
    ensures { result ≡ high_word target }
{
    (target / 65_536) as u16
}

fn low(target: u32) -> u16
    ensures { result ≡ low_word target }
{
    (target % 65_536) as u16
}

// Appends some words and then others, or, refused, none.
fn append(words: &mut Vec<u16>, first: &[u16], then: &[u16]) -> Result<(), AllocError>
    ensures ok { OnOk result (words.new.items ≡ words.old.items ++ (first.now ++ then.now)) }
    ensures err { OnErr result (words.new.items ≡ words.old.items) }
{
    let before = words.len();
    words.extend_from_slice(first)?;
    if let Err(refused) = words.extend_from_slice(then) {
        words.truncate(before);
        return Err(refused);
    }
    Ok(())
}

fn append_cobegin(words: &mut Vec<u16>, line: u16, branches: &[u16]) -> Result<(), AllocError>
    requires whole { length branches.now % 3 ≡ 0 }
    requires count { length branches.now / 3 < 2 ^ 16 }
    ensures ok { OnOk result (words.new.items ≡ words.old.items ++ words_of (cobegin line (branches_of branches.now))) }
    ensures err { OnErr result (words.new.items ≡ words.old.items) }
{
    append(
        words,
        &[opcode::COBEGIN, (branches.len() / 3) as u16, line],
        branches,
    )
}

// A word can hold this integer. It does nothing, and neither does the next.
#[tactic(auto, using(crate::proofs::Branches::integer_fits))]
fn integer_fits(integer: i16)
    ensures { is_integer integer ≡ true }
{
    let _ = integer;
}

// A word can hold each bound of an INDEX or a CHECK.
fn integers_fit(op: &Op<'_>)
    ensures { has_integers (instruction_of op.now) ≡ true }
{
    match *op {
        Op::Index { low, high, .. } => {
            integer_fits(low);
            integer_fits(high);
        }
        Op::Check { low, high, .. } => {
            integer_fits(low);
            integer_fits(high);
        }
        _ => {}
    }
}

fn append_op(words: &mut Vec<u16>, op: &Op<'_>) -> Result<(), AllocError>
    requires { IsTrue (is_whole op.now && is_allowed (instruction_of op.now)) }
    ensures ok { OnOk result (words.new.items ≡ words.old.items ++ words_of (instruction_of op.now)) }
    ensures err { OnErr result (words.new.items ≡ words.old.items) }
{
    match *op {
        Op::Const { value } => words.extend_from_slice(&[opcode::CONST, value]),
        Op::Text { words: text } => append(words, &[opcode::TEXT, text.len() as u16], text),
        Op::Zeros { count } => words.extend_from_slice(&[opcode::ZEROS, count]),
        Op::Address { level, offset } => words.extend_from_slice(&[opcode::ADDRESS, level, offset]),
        Op::Field { offset } => words.extend_from_slice(&[opcode::FIELD, offset]),
        Op::Index {
            low,
            high,
            size,
            line,
        } => words.extend_from_slice(&[
            opcode::INDEX,
            low.cast_unsigned(),
            high.cast_unsigned(),
            size,
            line,
        ]),
        Op::Load { count } => words.extend_from_slice(&[opcode::LOAD, count]),
        Op::Store { count } => words.extend_from_slice(&[opcode::STORE, count]),
        Op::Add { line } => words.extend_from_slice(&[opcode::ADD, line]),
        Op::Sub { line } => words.extend_from_slice(&[opcode::SUB, line]),
        Op::Mul { line } => words.extend_from_slice(&[opcode::MUL, line]),
        Op::Div { line } => words.extend_from_slice(&[opcode::DIV, line]),
        Op::Mod { line } => words.extend_from_slice(&[opcode::MOD, line]),
        Op::Neg { line } => words.extend_from_slice(&[opcode::NEG, line]),
        Op::Not => words.extend_from_slice(&[opcode::NOT]),
        Op::Eq { count } => words.extend_from_slice(&[opcode::EQ, count]),
        Op::Ne { count } => words.extend_from_slice(&[opcode::NE, count]),
        Op::Lt => words.extend_from_slice(&[opcode::LT]),
        Op::Le => words.extend_from_slice(&[opcode::LE]),
        Op::Gt => words.extend_from_slice(&[opcode::GT]),
        Op::Ge => words.extend_from_slice(&[opcode::GE]),
        Op::Union => words.extend_from_slice(&[opcode::UNION]),
        Op::Minus => words.extend_from_slice(&[opcode::MINUS]),
        Op::Meet => words.extend_from_slice(&[opcode::MEET]),
        Op::In => words.extend_from_slice(&[opcode::IN]),
        Op::Member { line } => words.extend_from_slice(&[opcode::MEMBER, line]),
        Op::Check { low, high, line } => words.extend_from_slice(&[
            opcode::CHECK,
            low.cast_unsigned(),
            high.cast_unsigned(),
            line,
        ]),
        Op::Jump { target } => words.extend_from_slice(&[opcode::JUMP, high(target), low(target)]),
        Op::False { target } => words.extend_from_slice(&[
            opcode::FALSE,
            high(target),
            low(target),
        ]),
        Op::And { target } => words.extend_from_slice(&[opcode::AND, high(target), low(target)]),
        Op::Or { target } => words.extend_from_slice(&[opcode::OR, high(target), low(target)]),
        Op::Loop { target } => words.extend_from_slice(&[opcode::LOOP, high(target), low(target)]),
        Op::Entry {
            need,
            results,
            parameters,
            variables,
            function,
        } => words.extend_from_slice(&[
            opcode::ENTRY,
            need,
            results,
            parameters,
            variables,
            function,
        ]),
        Op::Call {
            level,
            target,
            line,
        } => words.extend_from_slice(&[opcode::CALL, level, high(target), low(target), line]),
        Op::CallP {
            level,
            offset,
            line,
        } => words.extend_from_slice(&[opcode::CALL_P, level, offset, line]),
        Op::Proc { level, target } => words.extend_from_slice(&[
            opcode::PROC,
            level,
            high(target),
            low(target),
        ]),
        Op::Return { results, function } => words.extend_from_slice(&[
            opcode::RETURN,
            results,
            function,
        ]),
        Op::Halt { line } => words.extend_from_slice(&[opcode::HALT, line]),
        Op::When { line } => words.extend_from_slice(&[opcode::WHEN, line]),
        Op::Retry { target } => words.extend_from_slice(&[
            opcode::RETRY,
            high(target),
            low(target),
        ]),
        Op::Done => words.extend_from_slice(&[opcode::DONE]),
        Op::Cobegin { line, branches } => append_cobegin(words, line, branches),
        Op::Exit => words.extend_from_slice(&[opcode::EXIT]),
        Op::Quiet { target } => words.extend_from_slice(&[
            opcode::QUIET,
            high(target),
            low(target),
        ]),
    }
}

/// Appends the words of an instruction, whose operands the table must allow. Refused, the words are as before.
#[tactic(auto, using(crate::proofs::Writing::written_again))]
pub fn write_op(alloc: Global, words: &mut Vec<u16>, op: &Op<'_>) -> Result<(), AllocError>
    requires allowed { IsTrue (is_whole op.now && is_allowed (instruction_of op.now)) }
    ensures ok { OnOk result (words.new.items ≡ words.old.items ++ words_of (instruction_of op.now)) }
    ensures err { OnErr result (words.new.items ≡ words.old.items) }

    // It is read again, whatever follows.
    ensures again { OnOk result ((rest : List ℕ) → Reads (words.new.items ++ rest) (length words.old.items) (instruction_of op.now) (length words.new.items)) }
{
    let _ = alloc;
    integers_fit(op);
    append_op(words, op)
}
