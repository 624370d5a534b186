//! The `when`s of a line, each with its place among those of its block.

ghost use Rattle.std.specs.Prelude.{◌≡◌, ℕ, ◌<◌, ◌+◌, ◌==◌, ◌++◌, ◌∷◌, [], if◌then◌else◌, vec_len, slice_index_or, IfOk, OnOk};
ghost use Rattle.edi_unit.specs.Lists.{list_items};
ghost use Rattle.edi_sights.specs.Sights as spec;

use crate::answer::{Sight, Sights};
use crate::awaits::Await;
use edi_unit::List;
use std::alloc::{AllocError, Global};

/// Makes room for the count of a block. A block without one counts 0.
fn make_room(counts: &mut Vec<u32>, block: u32) -> Result<(), AllocError>
    ensures same { OnOk result ((b : ℕ) → slice_index_or counts.new.items b 0 ≡ slice_index_or counts.old.items b 0) }
    ensures room { OnOk result (block < vec_len counts.new) }
{
    let wanted = block as usize + 1;
    if counts.len() < wanted {
        counts.resize(wanted, 0)?;
    }
    Ok(())
}

/// Counts one more for a block, and gives the count before.
#[tactic(auto, using(crate::proofs::Counted::counted_one))]
fn count_one(counts: &mut Vec<u32>, block: u32) -> Result<u32, AllocError>
    ensures count { IfOk result (λ count. count ≡ slice_index_or counts.old.items block 0) }
    ensures counted { OnOk result ((b : ℕ) → slice_index_or counts.new.items b 0
        ≡ (if block == b then slice_index_or counts.old.items b 0 + 1 else slice_index_or counts.old.items b 0)) }
{
    make_room(counts, block)?;
    let count = counts[block as usize];
    if count == 0xFFFF_FFFF {
        return Err(AllocError);
    }
    counts[block as usize] = count + 1;
    Ok(count)
}

/// Puts a `when` behind the others, if it is wanted.
fn add_if(wanted: bool, sight: Sight, sights: &mut Vec<Sight>) -> Result<(), AllocError>
    ensures exact { OnOk result (sights.new.items ≡ sights.old.items ++ (if wanted then sight ∷ [] else [])) }
{
    if wanted {
        sights.push(sight)?;
    }
    Ok(())
}

/// The `when`s on a line.
pub(crate) fn sights_on(alloc: Global, awaits: &[Await], line: u16) -> Result<Sights, AllocError>
    ensures exact { IfOk result (λ sights. list_items sights ≡ spec.sights_on line [] awaits.now) }
{
    let mut counts: Vec<u32> = Vec::new(alloc);
    let mut sights = Vec::new(alloc);
    for one in awaits {
        let index = count_one(&mut counts, one.block)?;
        let sight = Sight {
            block: one.block,
            index,
            slot: one.slot,
        };
        add_if(one.line == line, sight, &mut sights)?;
    }
    Ok(List::from_vec(sights))
}
