//! The block in whose code an address is.

ghost use Rattle.std.specs.Prelude.{◌≡◌, ◌∷◌, ◌++◌, ◌<◌, ◌^◌, [], if◌then◌else◌, filter, length, nat_lt, Some, IfOk, OnOk};
ghost use Rattle.edi_target.specs.View.{instruction_of};
ghost use Rattle.edi_dump.specs.Frames as spec;

use edi_target::{Op, read_op};
use std::alloc::{AllocError, Global};

// Whether a block ends at an instruction.
fn ends_block(op: &Op<'_>) -> bool
    ensures exact { result ≡ spec.ends_block (Some (instruction_of op.now)) }
{
    match *op {
        Op::Return { .. } => true,
        Op::Exit => true,
        _ => false,
    }
}

// Puts an address after others, if it is wanted. The only error is that memory ran out, as everywhere here.
fn add_if(wanted: bool, at: u32, ends: &mut Vec<u32>) -> Result<(), AllocError>
    ensures exact { OnOk result (ends.new.items ≡ ends.old.items ++ (if wanted then at ∷ [] else [])) }
{
    if wanted {
        ends.push(at)?;
    }
    Ok(())
}

/// Where the blocks of a code end: the address of the last instruction of each.
#[tactic(auto, using(crate::proofs::Addresses::ends_all))]
pub(crate) fn block_ends(alloc: Global, words: &[u16]) -> Result<Vec<u32>, AllocError>
    requires size { length words.now < 2 ^ 32 }
    ensures exact { IfOk result (λ ends. ends.items ≡ spec.block_ends words.now) }
{
    let mut ends: Vec<u32> = Vec::new(alloc);
    let mut at: u32 = 0;
    while let Some((op, next)) = read_op(words, at) {
        add_if(ends_block(&op), at, &mut ends)?;
        at = next;
    }
    Ok(ends)
}

// One, or none.
fn one_if(wanted: bool) -> usize
    ensures exact { result ≡ (if wanted then 1 else 0) }
{
    if wanted { 1 } else { 0 }
}

/// How many of these blocks end before an address: the number of its own.
pub(crate) fn block_of(ends: &[u32], at: u32) -> usize
    ensures exact { result ≡ length (filter (λ end. nat_lt end at) ends.now) }
{
    let mut found: usize = 0;
    for end in ends {
        found += one_if(*end < at);
    }
    found
}
