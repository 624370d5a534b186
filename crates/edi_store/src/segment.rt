//! Segments of the memory.

ghost use Rattle.std.specs.Prelude.{◌≡◌, ◌<◌, ◌≤◌};
ghost use Rattle.edi_store.specs.Segments.{share_of, IsWithin, SharesAreApart};

use crate::store::MEMORY_WORDS;

/// The words of the memory from `first` up to `last`, which is not one of them.
#[derive(Clone, Copy, PartialEq, Eq, Debug)]
pub struct Segment {
    /// The address of the first word.
    pub first: u32,
    /// The address after that of the last word, at most `MEMORY_WORDS`.
    pub last: u32,
}

/// The segment of child `i` of `n`, counted from 0: of equal shares of the room, the one that begins `i` shares after
/// the room's first word.
pub fn carve(room: Segment, n: u32, i: u32) -> Segment
    requires ordered { room.first ≤ room.last }
    requires in_memory { room.last ≤ MEMORY_WORDS }
    requires child { i < n }
    ensures exact { result ≡ share_of room n i }
    ensures within { IsWithin result room }
{
    let share = (room.last - room.first) / n;
    let first = room.first + i * share;
    Segment {
        first,
        last: first + share,
    }
}

/// The law that the shares of two children have no word in common. It does nothing.
pub fn shares_are_apart()
    ensures apart { SharesAreApart }
{}
