//! How instructions are read.

ghost use Rattle.std.specs.Prelude.{◌≡◌, ℕ, ◌+◌, ◌≤◌, ◌<◌, ◌^◌, ◌∷◌, List, Some, None, length, drop, IsTrue, IfSome, IfNone};
ghost use Rattle.edi_target.specs.Op.{Instruction, address_of_words};
ghost use Rattle.edi_target.specs.Decode.{decode, shaped};
ghost use Rattle.edi_target.specs.Reading.{Reads};
ghost use Rattle.edi_target.specs.View.{Shows, Found, instruction_of, is_whole};

use crate::op::Op;
use crate::opcode;

/// The code address of two words.
#[inline(always)]
pub fn address(high: u16, low: u16) -> u32
    ensures { result ≡ address_of_words high low }
{
    u32::from(high) * 65_536 + u32::from(low)
}

// CONST to STORE, and nothing of the number 0
#[inline(always)]
fn data_op<'a>(number: u16, operands: &'a [u16]) -> Option<(Op<'a>, u32)>
    requires { number ≤ 8 }
    ensures gives { Shows result (shaped (number ∷ operands.now)) }
    ensures whole { IfSome result (λ r. IsTrue (is_whole r.0)) }
{
    match number {
        0 => None,
        opcode::CONST => match *operands {
            [value, ..] => Some((Op::Const { value }, 2)),
            _ => None,
        },
        opcode::TEXT => match *operands {
            [count, ref words @ ..] => Some((
                Op::Text {
                    words: words.get(..usize::from(count))?,
                },
                u32::from(count) + 2,
            )),
            _ => None,
        },
        opcode::ZEROS => match *operands {
            [count, ..] => Some((Op::Zeros { count }, 2)),
            _ => None,
        },
        opcode::ADDRESS => match *operands {
            [level, offset, ..] => Some((Op::Address { level, offset }, 3)),
            _ => None,
        },
        opcode::FIELD => match *operands {
            [offset, ..] => Some((Op::Field { offset }, 2)),
            _ => None,
        },
        opcode::INDEX => match *operands {
            [low, high, size, line, ..] => Some((
                Op::Index {
                    low: low.cast_signed(),
                    high: high.cast_signed(),
                    size,
                    line,
                },
                5,
            )),
            _ => None,
        },
        opcode::LOAD => match *operands {
            [count, ..] => Some((Op::Load { count }, 2)),
            _ => None,
        },
        _ => match *operands {
            [count, ..] => Some((Op::Store { count }, 2)),
            _ => None,
        },
    }
}

// ADD to NE
#[inline(always)]
fn arithmetic_op<'a>(number: u16, operands: &'a [u16]) -> Option<(Op<'a>, u32)>
    requires low { 9 ≤ number }
    requires high { number ≤ 17 }
    ensures gives { Shows result (shaped (number ∷ operands.now)) }
    ensures whole { IfSome result (λ r. IsTrue (is_whole r.0)) }
{
    match number {
        opcode::ADD => match *operands {
            [line, ..] => Some((Op::Add { line }, 2)),
            _ => None,
        },
        opcode::SUB => match *operands {
            [line, ..] => Some((Op::Sub { line }, 2)),
            _ => None,
        },
        opcode::MUL => match *operands {
            [line, ..] => Some((Op::Mul { line }, 2)),
            _ => None,
        },
        opcode::DIV => match *operands {
            [line, ..] => Some((Op::Div { line }, 2)),
            _ => None,
        },
        opcode::MOD => match *operands {
            [line, ..] => Some((Op::Mod { line }, 2)),
            _ => None,
        },
        opcode::NEG => match *operands {
            [line, ..] => Some((Op::Neg { line }, 2)),
            _ => None,
        },
        opcode::NOT => Some((Op::Not, 1)),
        opcode::EQ => match *operands {
            [count, ..] => Some((Op::Eq { count }, 2)),
            _ => None,
        },
        _ => match *operands {
            [count, ..] => Some((Op::Ne { count }, 2)),
            _ => None,
        },
    }
}

// LT to IN: comparisons, and operators of sets
#[inline(always)]
fn comparison_op<'a>(number: u16, operands: &'a [u16]) -> Option<(Op<'a>, u32)>
    requires low { 18 ≤ number }
    requires high { number ≤ 25 }
    ensures gives { Shows result (shaped (number ∷ operands.now)) }
    ensures whole { IfSome result (λ r. IsTrue (is_whole r.0)) }
{
    match number {
        opcode::LT => Some((Op::Lt, 1)),
        opcode::LE => Some((Op::Le, 1)),
        opcode::GT => Some((Op::Gt, 1)),
        opcode::GE => Some((Op::Ge, 1)),
        opcode::UNION => Some((Op::Union, 1)),
        opcode::MINUS => Some((Op::Minus, 1)),
        opcode::MEET => Some((Op::Meet, 1)),
        _ => Some((Op::In, 1)),
    }
}

// MEMBER to LOOP
#[inline(always)]
fn jump_op<'a>(number: u16, operands: &'a [u16]) -> Option<(Op<'a>, u32)>
    requires low { 26 ≤ number }
    requires high { number ≤ 32 }
    ensures gives { Shows result (shaped (number ∷ operands.now)) }
    ensures whole { IfSome result (λ r. IsTrue (is_whole r.0)) }
{
    match number {
        opcode::MEMBER => match *operands {
            [line, ..] => Some((Op::Member { line }, 2)),
            _ => None,
        },
        opcode::CHECK => match *operands {
            [low, high, line, ..] => Some((
                Op::Check {
                    low: low.cast_signed(),
                    high: high.cast_signed(),
                    line,
                },
                4,
            )),
            _ => None,
        },
        opcode::JUMP => match *operands {
            [high, low, ..] => Some((
                Op::Jump {
                    target: address(high, low),
                },
                3,
            )),
            _ => None,
        },
        opcode::FALSE => match *operands {
            [high, low, ..] => Some((
                Op::False {
                    target: address(high, low),
                },
                3,
            )),
            _ => None,
        },
        opcode::AND => match *operands {
            [high, low, ..] => Some((
                Op::And {
                    target: address(high, low),
                },
                3,
            )),
            _ => None,
        },
        opcode::OR => match *operands {
            [high, low, ..] => Some((
                Op::Or {
                    target: address(high, low),
                },
                3,
            )),
            _ => None,
        },
        _ => match *operands {
            [high, low, ..] => Some((
                Op::Loop {
                    target: address(high, low),
                },
                3,
            )),
            _ => None,
        },
    }
}

// ENTRY to HALT
#[inline(always)]
fn block_op<'a>(number: u16, operands: &'a [u16]) -> Option<(Op<'a>, u32)>
    requires low { 33 ≤ number }
    requires high { number ≤ 38 }
    ensures gives { Shows result (shaped (number ∷ operands.now)) }
    ensures whole { IfSome result (λ r. IsTrue (is_whole r.0)) }
{
    match number {
        opcode::ENTRY => match *operands {
            [need, results, parameters, variables, function, ..] => Some((
                Op::Entry {
                    need,
                    results,
                    parameters,
                    variables,
                    function,
                },
                6,
            )),
            _ => None,
        },
        opcode::CALL => match *operands {
            [level, high, low, line, ..] => Some((
                Op::Call {
                    level,
                    target: address(high, low),
                    line,
                },
                5,
            )),
            _ => None,
        },
        opcode::CALL_P => match *operands {
            [level, offset, line, ..] => Some((
                Op::CallP {
                    level,
                    offset,
                    line,
                },
                4,
            )),
            _ => None,
        },
        opcode::PROC => match *operands {
            [level, high, low, ..] => Some((
                Op::Proc {
                    level,
                    target: address(high, low),
                },
                4,
            )),
            _ => None,
        },
        opcode::RETURN => match *operands {
            [results, function, ..] => Some((Op::Return { results, function }, 3)),
            _ => None,
        },
        _ => match *operands {
            [line, ..] => Some((Op::Halt { line }, 2)),
            _ => None,
        },
    }
}

// WHEN to QUIET, and nothing of the numbers above
#[inline(always)]
fn process_op<'a>(number: u16, operands: &'a [u16]) -> Option<(Op<'a>, u32)>
    requires { 39 ≤ number }
    ensures gives { Shows result (shaped (number ∷ operands.now)) }
    ensures whole { IfSome result (λ r. IsTrue (is_whole r.0)) }
{
    match number {
        opcode::WHEN => match *operands {
            [line, ..] => Some((Op::When { line }, 2)),
            _ => None,
        },
        opcode::RETRY => match *operands {
            [high, low, ..] => Some((
                Op::Retry {
                    target: address(high, low),
                },
                3,
            )),
            _ => None,
        },
        opcode::DONE => Some((Op::Done, 1)),
        opcode::COBEGIN => match *operands {
            [count, line, ref words @ ..] => Some((
                Op::Cobegin {
                    line,
                    branches: words.get(..3 * usize::from(count))?,
                },
                3 * u32::from(count) + 3,
            )),
            _ => None,
        },
        opcode::EXIT => Some((Op::Exit, 1)),
        opcode::QUIET => match *operands {
            [high, low, ..] => Some((
                Op::Quiet {
                    target: address(high, low),
                },
                3,
            )),
            _ => None,
        },
        _ => None,
    }
}

// An instruction of any operands at the front of the words, and its length.
#[inline(always)]
fn op_at(words: &[u16]) -> Option<(Op<'_>, u32)>
    ensures gives { Shows result (shaped words.now) }
    ensures whole { IfSome result (λ r. IsTrue (is_whole r.0)) }
{
    let [number, operands @ ..] = words else {
        return None;
    };
    match *number {
        0..=8 => data_op(*number, operands),
        9..=17 => arithmetic_op(*number, operands),
        18..=25 => comparison_op(*number, operands),
        26..=32 => jump_op(*number, operands),
        33..=38 => block_op(*number, operands),
        39.. => process_op(*number, operands),
    }
}

/// The instruction at an address, and the next address. `None` where no instruction of the table stands there whole, or its
/// operands are not allowed.
#[inline(always)]
pub fn read_op(words: &[u16], at: u32) -> Option<(Op<'_>, u32)>
    requires { length words.now < 2 ^ 32 }
    ensures found { IfSome result (λ r. Found words.now at (instruction_of r.0) r.1) }
    ensures whole { IfSome result (λ r. IsTrue (is_whole r.0)) }
    ensures within { IfSome result (λ r. r.1 ≤ length words.now) }
    ensures after { IfSome result (λ r. at < r.1) }
    ensures none { IfNone result (decode (drop at words.now) ≡ None) }
    ensures nothing { IfNone result ((op : Instruction) (next : ℕ) → Reads words.now at op next → ⊥) }
{
    let Some(rest) = words.get(at as usize..) else {
        return None;
    };
    let Some((op, length)) = op_at(rest) else {
        return None;
    };
    if op.is_allowed() {
        Some((op, at + length))
    } else {
        None
    }
}
