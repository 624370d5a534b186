//! Blocks: the statements that are put into them, and the words that they need.

ghost use Rattle.std.specs.Prelude.{◌≡◌, IfOk, OnErr, Err};
ghost use Rattle.edi_static.specs.Prelude.{JudgedAnswers, acts_of, environment, gives};
ghost use Rattle.edi_static.specs.Statements as spec;
ghost use Rattle.edi_sema.specs.Blocks.{need_set, inside_block, outside_block};

use edi_static::{Judged, Known, StaticFault, StaticKind, must};
use edi_unit::{Acts, List, need};
use std::alloc::Global;

/// The greatest number of words that a block needs.
const GREATEST_NEED: u32 = 65535;

/// Statements, and then others.
#[tactic(auto, using(crate::proofs::Ends::acts_joined))]
fn joined(acts: Acts, more: Acts) -> Result<Acts, StaticFault>
    ensures ok { IfOk result (λ all. acts_of all ≡ spec.acts_append (acts_of acts) (acts_of more)) }
    ensures err { OnErr result (result ≡ Err StaticFault.NoMemory) }
{
    let mut all = acts.into_vec();
    let mut more = more.into_vec();
    if all.append(&mut more).is_err() {
        return Err(StaticFault::NoMemory);
    }
    Ok(List::from_vec(all))
}

/// Puts statements behind those of a block, which are those of its modules.
pub(crate) fn add_statements(known: &mut Known, alloc: Global, block: u32, acts: Acts) -> Judged<()>
    ensures exact { JudgedAnswers (λ _. environment known.new) result (gives (spec.add_statements block (acts_of acts) (environment known.old))) }
{
    if let Some(found) = known.blocks.get_mut(block as usize) {
        let body = std::mem::replace(&mut found.body, List::new(alloc));
        found.body = joined(body, acts)?;
    }
    Ok(())
}

/// Tells what a block needs.
fn set_need(known: &mut Known, block: u32, words: u32)
    ensures exact { environment known.new ≡ need_set block words (environment known.old) }
{
    if let Some(found) = known.blocks.get_mut(block as usize) {
        found.need = words;
    }
}

/// Closes a block with these statements. It needs at most 65,535 words; that is judged at the symbol that closes it.
pub(crate) fn close_block(
    known: &mut Known,
    alloc: Global,
    block: u32,
    acts: Acts,
    line: u16,
) -> Judged<()>
    ensures exact { JudgedAnswers (λ _. environment known.new) result (spec.close_block block (acts_of acts) line (environment known.old)) }
{
    add_statements(known, alloc, block, acts)?;
    let words = need(&known.types, known.blocks.as_slice(), block);
    must(words <= GREATEST_NEED, StaticKind::Range, line)?;
    set_need(known, block, words);
    Ok(())
}

/// Enters a block.
pub fn enter_around(known: &mut Known, block: u32) -> Judged<()>
    ensures exact { JudgedAnswers (λ _. environment known.new) result (gives (inside_block block (environment known.old))) }
{
    known.around.insert(0, block)?;
    Ok(())
}

/// Leaves the innermost block.
pub fn leave_around(known: &mut Known)
    ensures exact { environment known.new ≡ outside_block (environment known.old) }
{
    if !known.around.is_empty() {
        let _left = known.around.remove(0);
    }
}
