//! The texts of elementary values.

ghost use Rattle.std.specs.Prelude.{◌≡◌, ◌∷◌, ◌++◌, [], codes, slice_index_or, IfOk, OnOk};
ghost use Rattle.std.specs.Fmt.{signed_decimal};
ghost use Rattle.edi_unit.specs.Types.{shape_at};
ghost use Rattle.edi_unit.specs.ShapeView.{shape_of};
ghost use Rattle.edi_dump.specs.values.Texts as spec;
ghost use Rattle.edi_dump.specs.values.Views.{constants_of};

use crate::values::brackets::short;
use edi_lex::Text;
use edi_unit::{Shape, TypeTable};
use itoa::Buffer;
use std::alloc::AllocError;

/// What a type is; a number that is not in the table counts as `int`.
pub(crate) fn shape_at(types: &TypeTable, t: u32) -> &Shape
    ensures exact { shape_of result.now ≡ shape_at types.now t }
{
    if t < types.len() {
        types.shape(t)
    } else {
        types.shape(0)
    }
}

/// Puts an integer.
fn put_integer(out: &mut Vec<u8>, n: i16) -> Result<(), AllocError>
    ensures exact { OnOk result (out.new.items ≡ out.old.items ++ signed_decimal n) }
{
    let mut buffer = Buffer::new();
    out.extend_from_slice(buffer.format(n).as_bytes())?;
    Ok(())
}

/// Puts a character that cannot stand in a text.
fn put_converted(out: &mut Vec<u8>, n: i16) -> Result<(), AllocError>
    ensures exact { OnOk result (out.new.items ≡ out.old.items ++ (codes "char(" ++ (signed_decimal n ++ codes ")"))) }
{
    out.extend_from_slice(b"char(")?;
    put_integer(out, n)?;
    out.extend_from_slice(b")")?;
    Ok(())
}

/// Puts a character symbol.
fn put_symbol(out: &mut Vec<u8>, c: u8) -> Result<(), AllocError>
    ensures exact { OnOk result (out.new.items ≡ out.old.items ++ (39 ∷ c ∷ 39 ∷ [])) }
{
    out.extend_from_slice(&[b'\'', c, b'\''])?;
    Ok(())
}

/// Puts a character.
fn put_character(out: &mut Vec<u8>, n: i16) -> Result<(), AllocError>
    ensures exact { OnOk result (out.new.items ≡ out.old.items ++ spec.character_text n) }
{
    if n < 32 || n > 126 {
        return put_converted(out, n);
    }
    let c = n.cast_unsigned();
    put_symbol(out, c as u8)
}

/// Puts the constant with this ordinal.
fn put_constant(out: &mut Vec<u8>, constants: &[Text], n: i16) -> Result<(), AllocError>
    ensures exact { OnOk result (out.new.items ≡ out.old.items ++ spec.constant_text constants.now n) }
{
    if n < 0 {
        return put_integer(out, n);
    }
    match constants.get(usize::from(n.cast_unsigned())) {
        Some(name) => {
            out.extend_from_slice(short(name.as_slice()))?;
            Ok(())
        }
        None => put_integer(out, n),
    }
}

/// The names of the constants of a type.
fn constants_at(constants: &[Vec<Text>], t: u32) -> &[Text]
    ensures exact { result.now ≡ slice_index_or (constants_of constants.now) t [] }
{
    match constants.get(t as usize) {
        Some(names) => names.as_slice(),
        None => &[],
    }
}

/// Puts an elementary value of this type.
fn put_ordinal(
    out: &mut Vec<u8>,
    types: &TypeTable,
    constants: &[Vec<Text>],
    t: u32,
    n: i16,
) -> Result<(), AllocError>
    ensures exact { OnOk result (out.new.items ≡ out.old.items ++ spec.ordinal_text types.now (constants_of constants.now) t n) }
{
    match shape_at(types, t) {
        Shape::Int => put_integer(out, n),
        Shape::Char => put_character(out, n),
        _ => put_constant(out, constants_at(constants, t), n),
    }
}

/// Puts an elementary value, which is a part. As everywhere here, the result is how many parts may be told after it.
pub(crate) fn put_one(
    out: &mut Vec<u8>,
    types: &TypeTable,
    constants: &[Vec<Text>],
    left: usize,
    t: u32,
    n: i16,
) -> Result<usize, AllocError>
    ensures exact { OnOk result (out.new.items ≡ out.old.items ++ (spec.ordinal_piece types.now (constants_of constants.now) left t n).text) }
    ensures left { IfOk result (λ more. more ≡ (spec.ordinal_piece types.now (constants_of constants.now) left t n).left) }
{
    put_ordinal(out, types, constants, t, n)?;
    Ok(left.saturating_sub(1))
}
