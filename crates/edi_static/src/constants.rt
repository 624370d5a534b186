//! The rules on constants.

ghost use Rattle.std.specs.Prelude.{◌≡◌, ◌<◌, length, IsTrue, IfOk};
ghost use Rattle.edi_tree.specs.View.{const_list_of};
ghost use Rattle.edi_unit.specs.Types.{char_type, is_elementary};
ghost use Rattle.edi_static.specs.Prelude.{Declares, JudgedAnswers, MayDeclare, Proper, environment, ordinal_of};
ghost use Rattle.edi_static.specs.Types as spec;

use crate::faults::{Judged, StaticKind};
use crate::known::{Known, fault, must};
use edi_scope::Entity;
use edi_tree::{ConstDecl, ConstList, Constant};
use edi_unit::{CHAR, INT};
use std::alloc::Global;

/// The value of an elementary type.
#[derive(Clone, Copy)]
pub struct Ordinal {
    pub of: u32,
    pub ordinal: i16,
}

/// A constant is asked.
fn as_constant(line: u16, entity: Entity) -> Judged<Ordinal>
    ensures exact { JudgedAnswers ordinal_of result (spec.as_constant line entity) }
    ensures constant { IfOk result (λ c. entity ≡ Entity.Constant c.of c.ordinal) }
{
    match entity {
        Entity::Constant { of, ordinal } => Ok(Ordinal { of, ordinal }),
        _ => fault(StaticKind::Kind, line),
    }
}

/// Before a numeral in parentheses the standard type `char` is asked; the numeral is at most 127.
fn as_character(line: u16, ordinal: i16, entity: Entity) -> Judged<Ordinal>
    ensures exact { JudgedAnswers ordinal_of result (spec.as_character line ordinal entity) }
    ensures character { IfOk result (λ c. c.of ≡ char_type) }
{
    match entity {
        Entity::Types(CHAR) => {
            must(ordinal <= 127, StaticKind::Range, line)?;
            Ok(Ordinal { of: CHAR, ordinal })
        }
        _ => fault(StaticKind::Kind, line),
    }
}

/// The value of a constant.
pub fn constant(known: &Known, constant: &Constant) -> Judged<Ordinal>
    ensures exact { JudgedAnswers ordinal_of result (spec.constant (environment known.now) constant.now) }
    ensures known { Proper (environment known.now) → IfOk result (λ c. (c.of < length known.now.types) × IsTrue (is_elementary known.now.types c.of)) }
{
    match constant {
        Constant::Numeral(ordinal) => Ok(Ordinal {
            of: INT,
            ordinal: *ordinal,
        }),
        Constant::Char(char) => Ok(Ordinal {
            of: CHAR,
            ordinal: i16::from(char.character),
        }),
        Constant::Name(name, None) => as_constant(name.line, known.look_up(name)?),
        Constant::Name(name, Some(ordinal)) => {
            as_character(name.line, *ordinal, known.look_up(name)?)
        }
    }
}

/// The constant is judged first, then the name is declared.
fn const_decl(known: &mut Known, alloc: Global, export: bool, declaration: &ConstDecl) -> Judged<()>
    requires may { MayDeclare export (environment known.old) }
    ensures exact { JudgedAnswers (λ _. environment known.new) result (spec.const_decl export declaration.now (environment known.old)) }
    ensures declares { Declares export result (environment known.old) (environment known.new) }
{
    let value = constant(known, &declaration.constant)?;
    let entity = Entity::Constant {
        of: value.of,
        ordinal: value.ordinal,
    };
    known.declare(alloc, export, &declaration.name, entity)
}

pub fn const_list(known: &mut Known, alloc: Global, export: bool, list: &ConstList) -> Judged<()>
    requires may { MayDeclare export (environment known.old) }
    ensures exact { JudgedAnswers (λ _. environment known.new) result (spec.const_list export (const_list_of list.now) (environment known.old)) }
    ensures declares { Declares export result (environment known.old) (environment known.new) }
{
    const_decl(known, alloc, export, &list.first)?;
    for declaration in list.more.items() {
        const_decl(known, alloc, export, declaration)?;
    }
    Ok(())
}
