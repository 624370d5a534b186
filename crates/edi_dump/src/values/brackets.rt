//! Lists of parts, and how many parts are shown.

ghost use Rattle.std.specs.Prelude.{◌≡◌, ◌++◌, codes, take, IfOk, OnOk};
ghost use Rattle.edi_dump.specs.values.Texts as spec;

use std::alloc::AllocError;

/// The greatest number of parts of one variable that are shown, and of words of a frame.
pub(crate) const MOST_SHOWN: usize = 64;

/// As many letters of a name as are told.
const MOST_LETTERS: usize = 64;

/// How many values may stand in one another, so that the stack lasts.
pub(crate) const MOST_DEEP: u64 = 64;

/// The first of some parts, at most so many.
pub(crate) fn first<T>(parts: &[T], most: usize) -> &[T]
    ensures exact { result.now ≡ take most parts.now }
{
    let (front, _) = parts.split_at(parts.len().min(most));
    front
}

/// The first 64 of some parts.
pub(crate) fn shown<T>(parts: &[T]) -> &[T]
    ensures exact { result.now ≡ take spec.most_shown parts.now }
{
    first(parts, MOST_SHOWN)
}

/// The letters of a name that are told.
pub(crate) fn short(name: &[u8]) -> &[u8]
    ensures exact { result.now ≡ spec.short name.now }
{
    first(name, MOST_LETTERS)
}

/// Puts what stands before a part. The only error is that memory ran out, as everywhere here.
pub(crate) fn put_gap(out: &mut Vec<u8>, first: bool) -> Result<(), AllocError>
    ensures exact { OnOk result (out.new.items ≡ out.old.items ++ spec.gap first) }
{
    if first {
        return Ok(());
    }
    out.extend_from_slice(b", ")?;
    Ok(())
}

/// Puts `..` for the parts that are not shown.
pub(crate) fn put_more(out: &mut Vec<u8>, first: bool) -> Result<(), AllocError>
    ensures exact { OnOk result (out.new.items ≡ out.old.items ++ (spec.gap first ++ codes "..")) }
{
    put_gap(out, first)?;
    out.extend_from_slice(b"..")?;
    Ok(())
}

/// Puts `..` for a value that stands too deep, which is a part. The result is how many parts may be told after it.
pub(crate) fn put_cut(out: &mut Vec<u8>, left: usize) -> Result<usize, AllocError>
    ensures exact { OnOk result (out.new.items ≡ out.old.items ++ (spec.cut_piece left).text) }
    ensures left { IfOk result (λ more. more ≡ (spec.cut_piece left).left) }
{
    out.extend_from_slice(b"..")?;
    Ok(left.saturating_sub(1))
}
