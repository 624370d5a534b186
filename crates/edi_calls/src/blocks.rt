//! The blocks of the disk that a file takes.

ghost use Rattle.std.specs.Prelude.{◌≡◌, ◌≤◌};
ghost use Rattle.edi_calls.specs.State.{most_bytes, pages_of, blocks_of};

/// The number of bytes of a page.
const PAGE: usize = 512;

/// The greatest number of pages of one map block.
const MAP: usize = 255;

/// The blocks that a file of so many bytes takes: its pages, and one map block, or two where there are more than
/// 255 pages.
pub fn blocks_of(bytes: usize) -> usize
    requires { bytes ≤ most_bytes }
    ensures exact { result ≡ blocks_of bytes }
    ensures bound { result ≤ 512 }
{
    let pages = bytes.div_ceil(PAGE);
    pages + if pages <= MAP { 1 } else { 2 }
}
