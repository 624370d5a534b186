//! Free blocks.

ghost use Rattle.std.specs.Prelude.{◌≡◌, ◌≤◌, ◌<◌, ◌+◌, ◌++◌, ℕ, [], ◌∷◌, true, false, length, slice_index_or};
ghost use Rattle.edi_image.specs.Records.{maps_of};
ghost use Rattle.std.specs.List.{list_all};
ghost use Rattle.edi_image.specs.Rules.{is_in};
ghost use Rattle.edi_image.specs.Stored.{is_stored, blocks_taken};
ghost use Rattle.edi_catalog.specs.Plan.{used_in, blocks_used, one_or_none, AreFree, Inserts};

use arrayvec::ArrayVec;
use edi_image::{FIRST, StoredFile};

/// The greatest number of blocks of a file: 510 pages and two maps.
pub(crate) const FILE_BLOCKS: usize = 512;

/// The blocks of a file.
pub(crate) type Blocks = ArrayVec<u16, FILE_BLOCKS>;

/// The greatest number of blocks of a drive.
const MOST_BLOCKS: usize = 4096;

/// A set of blocks: for each whether it is in it.
type BlockSet = [bool; MOST_BLOCKS];

// Puts a block into the set.
fn insert(used: &mut BlockSet, block: u16)
    ensures exact { Inserts (block ∷ []) used.old used.new }
{
    let block = usize::from(block);
    if block < MOST_BLOCKS {
        used[block] = true;
    }
}

// Puts these blocks into the set.
fn insert_all(used: &mut BlockSet, blocks: &[u16])
    ensures exact { Inserts blocks.now used.old used.new }
{
    for block in blocks {
        insert(used, *block);
    }
}

// Puts a block into the set, where there is one.
fn insert_any(used: &mut BlockSet, block: Option<u16>)
    ensures exact { Inserts (one_or_none block) used.old used.new }
{
    match block {
        Some(block) => insert(used, block),
        None => {}
    }
}

// Puts the maps and the pages of a file into the set.
fn insert_stored(used: &mut BlockSet, first: u16, second: Option<u16>, pages: &[u16])
    ensures exact { Inserts (maps_of first second ++ pages.now) used.old used.new }
{
    insert(used, first);
    insert_any(used, second);
    insert_all(used, pages);
}

// Puts the blocks of the file in a slot into the set.
fn insert_file(used: &mut BlockSet, file: &Option<StoredFile>)
    ensures exact { Inserts (used_in file.now) used.old used.new }
{
    match file {
        Some(file) => insert_stored(
            used,
            file.record.first_map,
            file.record.second_map,
            file.pages.as_slice(),
        ),
        None => {}
    }
}

// The set of the blocks that files use.
fn used_blocks(files: &[Option<StoredFile>]) -> BlockSet
    ensures exact { (n : ℕ) → n < 4096 → slice_index_or result n false ≡ is_in n (blocks_used files.now) }
{
    let mut used: BlockSet = [false; MOST_BLOCKS];
    for file in files {
        insert_file(&mut used, file);
    }
    used
}

/// So many blocks that are free on a drive of `count` blocks, the first ones.
pub(crate) fn free_blocks(files: &[Option<StoredFile>], count: u32, wanted: usize) -> Blocks
    requires image { count ≤ 4096 }
    requires file { wanted ≤ FILE_BLOCKS }
    requires stored { list_all (is_stored count) files.now ≡ true }
    requires room { wanted + 33 + blocks_taken files.now ≤ count }
    ensures many { length result.items ≡ wanted }
    ensures free { AreFree count files.now result.items }
{
    let used = used_blocks(files);
    let mut blocks = Blocks::new();
    for block in FIRST..count as u16 {
        if blocks.len() == wanted {
            return blocks;
        }
        if !used[usize::from(block)] {
            blocks.push(block);
        }
    }
    blocks
}
