//! Which symbols may stand after marks.

ghost use Rattle.std.specs.Prelude.{◌≡◌, ◌≤◌, ◌<◌, ℕ, List, IfOk, option_map, slice_index_or, false};
ghost use Rattle.edi_lex.specs.declared.symbol.Mark.{Mark};
ghost use Rattle.edi_explain.specs.expected.Advances.{Awaits, Reads};
ghost use Rattle.edi_explain.specs.expected.Reaches.{May};

use crate::expected::parser::{awaited, may_stand};
use edi_lex::Mark;
use std::alloc::{AllocError, Global};

/// How many kinds of symbols there are, the end of the text counted.
pub const KINDS: usize = 51;

/// Whether a symbol of each kind may stand after some marks, by the number of the kind; the number 0 is that of the end of the program.
#[derive(Clone, Copy)]
pub struct Expected {
    pub kinds: [bool; 51],
}

// Which symbols may stand where these are waited for.
fn expected_for(alloc: Global, numbers: &[u8]) -> Result<Expected, AllocError>
    ensures exact { IfOk result (λ e. (before : List Mark) → Awaits before numbers.now → (kind : ℕ) → kind ≤ 50
        → May before kind (slice_index_or e.kinds kind false)) }
{
    let mut kinds = [false; 51];
    let mut kind: u8 = 0;
    while kind <= 50 {
        kinds[kind as usize] = may_stand(alloc, numbers, kind)?;
        kind += 1;
    }
    Ok(Expected { kinds })
}

// The same of what is waited for after marks; None where they begin no program.
fn expected_where(alloc: Global, found: Option<Vec<u8>>) -> Result<Expected, AllocError>
    ensures exact { IfOk result (λ e. (before : List Mark) → Reads before (option_map (λ numbers. numbers.items) found) → (kind : ℕ) → kind ≤ 50
        → May before kind (slice_index_or e.kinds kind false)) }
{
    match found {
        Some(numbers) => expected_for(alloc, numbers.as_slice()),
        None => Ok(Expected { kinds: [false; 51] }),
    }
}

/// Which symbols may stand after these marks: those with which the marks go on as some program. The only error is that memory runs out.
pub(crate) fn expected_behind(alloc: Global, before: &[Mark]) -> Result<Expected, AllocError>
    ensures exact { IfOk result (λ e. (kind : ℕ) → kind ≤ 50 → May before.now kind (slice_index_or e.kinds kind false)) }
{
    let found = awaited(alloc, before)?;
    let expected = expected_where(alloc, found)?;
    Ok(expected)
}

/// The same, of marks that are given up.
pub fn expected_after(alloc: Global, before: Vec<Mark>) -> Result<Expected, AllocError>
    ensures exact { IfOk result (λ e. (kind : ℕ) → kind ≤ 50 → May before.items kind (slice_index_or e.kinds kind false)) }
{
    expected_behind(alloc, before.as_slice())
}
