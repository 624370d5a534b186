//! Jumps whose targets are known only behind what they jump over.

ghost use Rattle.std.specs.Prelude.{◌≡◌, ◌+◌, ◌-◌, ◌<◌, ◌≤◌, ◌^◌, [], ◌∷◌, ◌++◌, OnOk, length};
ghost use Rattle.edi_target.specs.Op.{jump};
ghost use Rattle.edi_scheme.specs.Pieces.{code_length, decision};
ghost use Rattle.edi_code.specs.Aimed as aimed;
ghost use Rattle.edi_code.specs.Aimed.{AreThere, aimed_at, decided};
ghost use Rattle.edi_code.specs.Emits.{Emits};
ghost use Rattle.edi_code.specs.Scope.{clause_kind_of};

use crate::instructions::put;
use crate::scope::{Appended, Closing};
use edi_target::Op;
use edi_unit::Operator;
use std::alloc::Global;

// Sets the target of the jump that begins at this index of the words.
pub(crate) fn aim(out: &mut Vec<u16>, start: usize, target: u32)
    requires there { start + 3 ≤ length out.old.items }
    ensures exact { out.new.items ≡ aimed_at target start out.old.items }
{
    out[start + 1] = (target / 65_536) as u16;
    out[start + 2] = (target % 65_536) as u16;
}

// Sets the target of each jump that begins at one of these indices.
pub(crate) fn aim_all(out: &mut Vec<u16>, starts: &[usize], target: u32)
    requires there { AreThere starts.now (length out.old.items) }
    ensures exact { out.new.items ≡ aimed.aimed target starts.now out.old.items }
{
    for start in starts {
        aim(out, *start, target);
    }
}

// Sets the target of what decides before a right operand, where the operator is one that decides; its code begins at this index.
pub(crate) fn decide(out: &mut Vec<u16>, operator: Operator, start: usize, behind: u32)
    requires there { start + code_length (decision operator 0) ≤ length out.old.items }
    ensures exact { out.new.items ≡ decided operator behind start out.old.items }
{
    match operator {
        Operator::And | Operator::Or => aim(out, start, behind),
        _ => {}
    }
}

// Appends a jump without its target, and puts its index behind the others.
pub(crate) fn open_jump(alloc: Global, starts: &mut Vec<usize>, out: &mut Vec<u16>) -> Appended
    ensures emits { OnOk result (Emits out.old.items out.new.items (jump 0 ∷ [])) }
    ensures opens { OnOk result (starts.new.items ≡ starts.old.items ++ length out.old.items ∷ []) }
{
    starts.push(out.len())?;
    put(alloc, &Op::Jump { target: 0 }, out)
}

// Where the lists of a statement's clauses go on that begin at `at` and end at `behind`.
pub(crate) fn target_of(closing: Closing, at: u32, behind: u32) -> u32
    requires begins { at ≤ behind }
    requires room { aimed.target_of (clause_kind_of closing) at (behind - at) < 2 ^ 32 }
    ensures exact { result ≡ aimed.target_of (clause_kind_of closing) at (behind - at) }
{
    match closing {
        Closing::Once => behind,
        Closing::Repeated => at,
        Closing::Released => behind + 3,
    }
}
