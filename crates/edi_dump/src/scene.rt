//! What the text of a dump is told from.

ghost use Rattle.std.specs.Prelude.{◌≡◌, map};
ghost use Rattle.edi_sights.specs.named.Naming.{named_at};
ghost use Rattle.edi_sights.specs.named.Views.{named_of};
ghost use Rattle.edi_dump.specs.Frames.{block_of};
ghost use Rattle.edi_dump.specs.Text.{blocks_of};
ghost use Rattle.edi_dump.specs.Views.{IsScene, known_in, words_in};

use crate::blocks::block_of;
use crate::known::Known;
use edi_sights::NamedBlock;
use edi_target::Code;
use std::alloc::Global;

/// A code, where its blocks end, what is known of its program, and the words of the memory.
#[derive(Drop)]
pub(crate) struct Scene<'a> {
    pub(crate) alloc: Global,
    pub(crate) code: &'a Code,
    pub(crate) ends: &'a [u32],
    pub(crate) known: Option<&'a Known>,
    pub(crate) memory: &'a [u16],
}

// The name of a block; one that is not there has none.
fn name_in(blocks: &[NamedBlock], block: usize) -> &[u8]
    ensures exact { result.now ≡ (named_at (map named_of blocks.now) block).name }
{
    match blocks.get(block) {
        Some(named) => named.name.as_slice(),
        None => b"",
    }
}

/// The name of the block in whose code an address is; where nothing is known of the program there is none.
pub(crate) fn name_at<'a>(scene: &Scene<'a>, at: u32) -> &'a [u8]
    requires scene { IsScene scene.now }
    ensures exact { result.now ≡ (named_at (blocks_of (known_in scene.now)) (block_of (words_in scene.now) at)).name }
{
    match scene.known {
        Some(known) => name_in(known.names.blocks.as_slice(), block_of(scene.ends, at)),
        None => b"",
    }
}
