//! A line of the log.

ghost use Rattle.std.specs.Prelude.{◌≡◌, ◌+◌, ◌≤◌, ◌<◌, ◌^◌, ◌++◌, [], length};
ghost use Rattle.edi_debug.specs.stops.Stops as spec;

use arrayvec::ArrayVec;
use itoa::Buffer;

/// Room for the longest line.
pub(crate) type Shown = ArrayVec<u8, 320>;

fn push(line: &mut Shown, bytes: &[u8])
    requires room { length line.old.items + length bytes.now ≤ 320 }
    ensures items { line.new.items ≡ line.old.items ++ bytes.now }
{
    line.try_extend_from_slice(bytes).unwrap();
}

/// `turn T line N NAME V` and a line feed.
pub(crate) fn line_of(turns: u64, line: u16, name: &[u8], value: i16) -> Shown
    requires short { length name.now ≤ 250 }
    ensures exact { result.items ≡ spec.line_of turns line name.now value }
{
    let mut buffer = Buffer::new();
    let mut shown = Shown::new();
    push(&mut shown, b"turn ");
    push(&mut shown, buffer.format(turns).as_bytes());
    push(&mut shown, b" line ");
    push(&mut shown, buffer.format(line).as_bytes());
    push(&mut shown, b" ");
    push(&mut shown, name);
    push(&mut shown, b" ");
    push(&mut shown, buffer.format(value).as_bytes());
    push(&mut shown, b"\n");
    shown
}
