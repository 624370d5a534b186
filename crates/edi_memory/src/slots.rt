//! The slots of the files, and the blocks that the files take.

ghost use Rattle.std.specs.Prelude.{◌≡◌, ◌<◌, ◌≤◌, ◌*◌, length, position, IfSome, is_none};
ghost use Rattle.edi_calls.specs.State.{File, most_bytes, pages_of, blocks_of, blocks_in, blocks_taken, is_titled, first_index, find_slot, first_free, slot_at};
ghost use Rattle.edi_calls.specs.Calls.{is_protected, open_slot, slot_for};

use crate::stored::StoredFile;
use edi_calls::blocks_of;

fn blocks_in(slot: &Option<StoredFile>) -> usize
    ensures exact { result ≡ blocks_in slot.now }
    ensures bound { result ≤ 512 }
{
    match slot {
        Some(file) => blocks_of(file.bytes().len()),
        None => 0,
    }
}

/// The blocks that all files take.
pub(crate) fn blocks_taken(slots: &[Option<StoredFile>]) -> usize
    requires { length slots.now ≤ 256 }
    ensures exact { result ≡ blocks_taken slots.now }
    ensures bound { result ≤ 512 * length slots.now }
{
    let mut taken = 0;
    for slot in slots {
        taken += blocks_in(slot);
    }
    taken
}

fn is_titled(slot: &Option<StoredFile>, title: &[u8]) -> bool
    ensures { result ≡ is_titled title.now slot.now }
{
    match slot {
        Some(file) => file.title() == title,
        None => false,
    }
}

// The first place of a file with this title.
fn titled_place(slots: &[Option<StoredFile>], title: &[u8]) -> Option<usize>
    ensures { result ≡ position (is_titled title.now) slots.now }
{
    slots.iter().position(|slot| is_titled(slot, title))
}

/// The slot of the file with this title.
#[tactic(auto, using(crate::proofs::Places::first_place, crate::proofs::Places::within_slots))]
pub(crate) fn find_slot(slots: &[Option<StoredFile>], title: &[u8]) -> Option<usize>
    ensures exact { result ≡ find_slot slots.now title.now }
    ensures within { IfSome result (λ index. index < length slots.now) }
{
    titled_place(slots, title)
}

// The first place without a file.
fn free_place(slots: &[Option<StoredFile>]) -> Option<usize>
    ensures { result ≡ position is_none slots.now }
{
    slots.iter().position(|slot| slot.is_none())
}

/// The first free slot.
#[tactic(auto, using(crate::proofs::Places::first_place, crate::proofs::Places::within_slots))]
pub(crate) fn first_free(slots: &[Option<StoredFile>]) -> Option<usize>
    ensures exact { result ≡ first_free slots.now }
    ensures within { IfSome result (λ index. index < length slots.now) }
{
    free_place(slots)
}

fn is_protected(slot: &Option<StoredFile>) -> bool
    ensures { result ≡ is_protected slot.now }
{
    match slot {
        Some(file) => file.is_protected(),
        None => false,
    }
}

/// The slot of the file with this title, if it may be changed: a protected file may not.
pub(crate) fn open_slot(slots: &[Option<StoredFile>], title: &[u8]) -> Option<usize>
    ensures exact { result ≡ open_slot slots.now title.now }
    ensures within { IfSome result (λ index. index < length slots.now) }
{
    let index = find_slot(slots, title)?;
    if is_protected(&slots[index]) {
        None
    } else {
        Some(index)
    }
}

/// The slot where a file of this title is stored: its own, if it may be changed; for a new title the first free one.
pub(crate) fn slot_for(slots: &[Option<StoredFile>], title: &[u8]) -> Option<usize>
    ensures exact { result ≡ slot_for slots.now title.now }
    ensures within { IfSome result (λ index. index < length slots.now) }
{
    if find_slot(slots, title).is_none() {
        first_free(slots)
    } else {
        open_slot(slots, title)
    }
}
