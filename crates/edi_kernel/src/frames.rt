//! The frames of a process, from the newest down.

ghost use Rattle.std.specs.Prelude.{◌≡◌, ◌+◌, ◌^◌, ◌<◌, ◌≤◌, IfSome};
ghost use Rattle.edi_target.specs.Op.{address_of_words};
ghost use Rattle.edi_target.specs.Memory.{word};
ghost use Rattle.edi_kernel.specs.Kept.{below_of};

use crate::kept;
use edi_store::Store;

/// The frame below one, in the segment of a process.
#[derive(Clone, Copy, PartialEq, Eq, Debug)]
pub struct Below {
    /// Its first word.
    pub base: u32,
    /// The address after that of the last of its words in use.
    pub top: u32,
    /// The address of the instruction in the code with which it goes on.
    pub back: u32,
}

/// The address that the words at `at` and after it say.
fn address_in(store: &Store, at: u32) -> u32
    requires { at + 2 ≤ 2 ^ 16 }
    ensures { result ≡ address_of_words (word store.now at) (word store.now (at + 1)) }
{
    let high = store.get(at as u16);
    let low = store.get((at + 1) as u16);
    u32::from(high) * 65_536 + u32::from(low)
}

/// The frame below the one at `base`, in the segment that begins at `first`; none below the lowest.
pub(crate) fn frame_below(store: &Store, first: u32, base: u32) -> Option<Below>
    requires { base + 5 ≤ 2 ^ 16 }
    ensures exact { result ≡ below_of store.now first base }
    ensures within { IfSome result (λ frame. frame.base + 5 ≤ 2 ^ 16) }
    ensures lower { IfSome result (λ frame. frame.base < base) }
{
    let (x, top) = kept::below(store, base);
    if !kept::leads_down(first, base, x, top) {
        return None;
    }
    let back = address_in(store, base + 2);
    Some(Below { base: x, top, back })
}
