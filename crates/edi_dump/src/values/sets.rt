//! The texts of sets.

ghost use Rattle.std.specs.Prelude.{◌≡◌, ◌∷◌, ◌*◌, ◌<◌, ◌++◌, [], if◌then◌else◌, true, filter, IfOk, OnOk, slice_index};
ghost use Rattle.std.specs.List.{range_with_len};
ghost use Rattle.edi_word.specs.Sets.{word_has};
ghost use Rattle.edi_word.specs.SetWords.{members_of};
ghost use Rattle.edi_dump.specs.values.Texts as spec;
ghost use Rattle.edi_dump.specs.values.Views.{constants_of};

use crate::values::brackets::{put_gap, put_more};
use crate::values::elementary::put_one;
use edi_lex::Text;
use edi_unit::TypeTable;
use std::alloc::{AllocError, Global};

/// The word at an index, and 0 where there is none.
pub(crate) fn word_at(words: &[u16], at: usize) -> u16
    ensures exact { result ≡ slice_index words.now at }
{
    words.get(at).copied().unwrap_or(0)
}

/// Whether an ordinal is a member of the set that these words are.
fn has(words: &[u16], n: u8) -> bool
    ensures exact { result ≡ word_has words.now n }
{
    let word = word_at(words, usize::from(n / 16));
    (word >> (n % 16)) % 2 == 1
}

/// Puts a number behind others, if it is wanted.
fn add_if(wanted: bool, n: u8, numbers: &mut Vec<u8>) -> Result<(), AllocError>
    ensures exact { OnOk result (numbers.new.items ≡ numbers.old.items ++ (if wanted then n ∷ [] else [])) }
{
    if wanted {
        numbers.push(n)?;
    }
    Ok(())
}

/// Puts the members that one of the eight words tells, after those of the words before it. A word 0 tells none.
#[tactic(auto, using(crate::proofs::valued::Sets::none_found))]
fn add_members(words: &[u16], at: u8, members: &mut Vec<u8>) -> Result<(), AllocError>
    requires one_of_eight { at < 8 }
    ensures exact { OnOk result (members.new.items ≡ members.old.items ++ filter (word_has words.now) (range_with_len (at * 16) 16)) }
{
    if word_at(words, usize::from(at)) == 0 {
        return Ok(());
    }
    for bit in 0..16 {
        let n = at * 16 + bit;
        add_if(has(words, n), n, members)?;
    }
    Ok(())
}

/// The members of the set that these words are.
fn members(alloc: Global, words: &[u16]) -> Result<Vec<u8>, AllocError>
    ensures exact { IfOk result (λ members. members.items ≡ members_of words.now) }
{
    let mut members = Vec::new(alloc);
    for at in 0..8 {
        add_members(words, at, &mut members)?;
    }
    Ok(members)
}

/// Puts members of a set of values of this type, which are parts each.
fn put_members(
    out: &mut Vec<u8>,
    types: &TypeTable,
    constants: &[Vec<Text>],
    left: usize,
    base: u32,
    members: &[u8],
) -> Result<usize, AllocError>
    ensures exact { OnOk result (out.new.items ≡ out.old.items ++
        (spec.members_piece types.now (constants_of constants.now) true left base members.now).text) }
    ensures left { IfOk result (λ more. more ≡ (spec.members_piece types.now (constants_of constants.now) true left base members.now).left) }
{
    let mut first = true;
    let mut more = left;
    for n in members {
        if more == 0 {
            put_more(out, first)?;
            return Ok(0);
        }
        put_gap(out, first)?;
        more = put_one(out, types, constants, more, base, i16::from(*n))?;
        first = false;
    }
    Ok(more)
}

/// Puts the set of values of this type that these words are. It is a part itself.
pub(crate) fn put_set(
    out: &mut Vec<u8>,
    alloc: Global,
    types: &TypeTable,
    constants: &[Vec<Text>],
    left: usize,
    base: u32,
    words: &[u16],
) -> Result<usize, AllocError>
    ensures exact { OnOk result (out.new.items ≡ out.old.items ++
        (spec.set_piece types.now (constants_of constants.now) left base (members_of words.now)).text) }
    ensures left { IfOk result (λ more. more ≡ (spec.set_piece types.now (constants_of constants.now) left base (members_of words.now)).left) }
{
    let members = members(alloc, words)?;
    out.push(b'[')?;
    let more = put_members(out, types, constants, left, base, members.as_slice())?;
    out.push(b']')?;
    Ok(more.saturating_sub(1))
}
