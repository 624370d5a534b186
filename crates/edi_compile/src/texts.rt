//! Texts that are whole.

ghost use Rattle.std.specs.Prelude.{◌≤◌, IfOk, length};
ghost use Rattle.edi_unit.specs.View.{blocks_of, unit_of};
ghost use Rattle.edi_texts.specs.Answers.{TextAnswers};
ghost use Rattle.edi_compile.specs.Compiled.{IsCodeOf, IsFrontOf};
ghost use Rattle.edi_compile.specs.Meant.{IsPrivateCode};

use crate::passes::{code_by, unit_by};
use edi_lex::scan;
use edi_target::Code;
use edi_texts::Refusal;
use edi_unit::Unit;
use std::alloc::Global;

/// The code of a text, or the text's first fault.
///
/// The faults come in this order: the text is too long, on line 0; its first lexical fault; its syntax fault; the first
/// construct of its tree that breaks a static rule. The code is that of the text's unit, as `translate` gives it. It has no
/// fault, has at most 8 words for each symbol of the text and 64, a string counting its characters, and does what the program
/// of the text means: on every system, with every bound on the turns and all choices it has the same outcome, and comes
/// through the same states of the system. While a process is at work, no word changes that is not its own.
pub fn compile(alloc: Global, text: &[u8]) -> Result<Code, Refusal>
    ensures exact { TextAnswers (IsCodeOf text.now) text.now result }
    ensures is_private { IfOk result IsPrivateCode }
{
    code_by(alloc, scan(alloc, text))
}

/// The resolved unit of a text, or the text's first fault, as `compile` has it. The unit can be coded, as `translate` asks: it
/// fits, its records have fields, its lines are words, and its code is as short as `compile` says. It has at most 4,194,304
/// blocks.
pub fn front(alloc: Global, text: &[u8]) -> Result<Unit, Refusal>
    ensures exact { TextAnswers (λ unit. IsFrontOf text.now (unit_of unit)) text.now result }
    ensures few { IfOk result (λ unit. length (blocks_of unit.blocks) ≤ 4194304) }
{
    unit_by(alloc, scan(alloc, text))
}
