//! The `when`s of a program, and what the name means at them.

ghost use Rattle.std.specs.Prelude.{◌≡◌, IfOk, OnOk, Option, Some};
ghost use Rattle.edi_scope.specs.declared.entity.Entity.TheVariants as entity;
ghost use Rattle.edi_scope.specs.Scope.{visible};
ghost use Rattle.edi_static.specs.Views.{environment};
ghost use Rattle.edi_sights.specs.Awaits as spec;
ghost use Rattle.edi_sights.specs.Counted.{with_await, with_block};
ghost use Rattle.edi_sights.specs.Views.{met_of};

use crate::answer::Sighted;
use edi_scope::Entity;
use edi_static::Known;
use std::alloc::AllocError;

/// A `when` of the text.
#[derive(Clone, Copy)]
pub(crate) struct Await {
    pub(crate) line: u16,
    /// The block in whose body it stands.
    pub(crate) block: u32,
    /// What the name means there, if that is a variable of an elementary type.
    pub(crate) slot: Option<Sighted>,
}

/// The `when`s met so far, and the number of the next block.
#[derive(Drop)]
pub(crate) struct Met {
    pub(crate) awaits: Vec<Await>,
    pub(crate) next: u32,
}

/// A number of 32 bits, if there is room for more numbers.
pub(crate) fn small(number: usize) -> Result<u32, AllocError>
    ensures exact { IfOk result (λ n. n ≡ number) }
{
    if number < 0xFFFF_FFFF {
        Ok(number as u32)
    } else {
        Err(AllocError)
    }
}

/// A variable, if its type is elementary.
fn variable_sighted(
    known: &Known,
    block: u32,
    variable: u32,
    of: u32,
) -> Result<Option<Sighted>, AllocError>
    ensures exact { IfOk result (λ slot. slot ≡ spec.sighted (environment known.now) (Some (entity.Variable block variable of))) }
{
    if !known.is_elementary(of) {
        return Ok(None);
    }
    let levels = small(known.steps_to(block))?;
    Ok(Some(Sighted { levels, variable }))
}

/// What the name means at a place, if that is a variable of an elementary type.
fn sighted(known: &Known, name: &[u8]) -> Result<Option<Sighted>, AllocError>
    ensures exact { IfOk result (λ slot. slot ≡ spec.sighted (environment known.now) (visible (environment known.now).scopes name.now)) }
{
    match known.scopes.look(name) {
        Some(
            Entity::Variable {
                block,
                variable,
                of,
            },
        ) => variable_sighted(known, block, variable, of),
        _ => Ok(None),
    }
}

/// A `when` at a place.
fn await_at(known: &Known, name: &[u8], line: u16) -> Result<Await, AllocError>
    ensures exact { IfOk result (λ one. one ≡ spec.await_at name.now line (environment known.now)) }
{
    let slot = sighted(known, name)?;
    Ok(Await {
        line,
        block: known.here(),
        slot,
    })
}

/// Meets a `when`.
pub(crate) fn meet(met: &mut Met, known: &Known, name: &[u8], line: u16) -> Result<(), AllocError>
    ensures exact { OnOk result (met_of met.new ≡ with_await (spec.await_at name.now line (environment known.now)) (met_of met.old)) }
{
    let one = await_at(known, name, line)?;
    met.awaits.push(one)?;
    Ok(())
}

/// Enters the next block, which is a branch, and gives its number.
pub(crate) fn next_block(met: &mut Met) -> Result<u32, AllocError>
    ensures exact { OnOk result (met_of met.new ≡ with_block (met_of met.old)) }
    ensures number { IfOk result (λ block. block ≡ (met_of met.old).next) }
{
    let block = met.next;
    if block == 0xFFFF_FFFF {
        return Err(AllocError);
    }
    met.next = block + 1;
    Ok(block)
}
