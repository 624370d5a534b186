//! The words of the memory.

ghost use Rattle.std.specs.Prelude.{◌≡◌, ◌≤◌, ◌^◌, take, IfOk};

use edi_kernel::Kernel;
use std::alloc::{AllocError, Global};

/// The number of words of the memory.
const MEMORY_WORDS: u32 = 65_536;

// The first words of the memory of a kernel. The only error is that memory ran out, as everywhere here.
fn first_words(alloc: Global, kernel: &Kernel, count: u32) -> Result<Vec<u16>, AllocError>
    requires within { count ≤ 2 ^ 16 }
    ensures exact { IfOk result (λ words. words.items ≡ take count kernel.now.store) }
{
    let mut words: Vec<u16> = Vec::new(alloc);
    for at in 0..count {
        words.push(kernel.word(at as u16))?;
    }
    Ok(words)
}

/// All words of the memory of a kernel.
pub(crate) fn memory_of(alloc: Global, kernel: &Kernel) -> Result<Vec<u16>, AllocError>
    ensures exact { IfOk result (λ words. words.items ≡ kernel.now.store) }
{
    // Whoever reads a word knows how many there are.
    let _first = kernel.word(0);
    first_words(alloc, kernel, MEMORY_WORDS)
}
