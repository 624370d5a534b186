//! The rules on types.

ghost use Rattle.std.specs.Prelude.{◌≡◌, ◌<◌, All, IsTrue, OnOk, length, map};
ghost use Rattle.edi_tree.specs.Sequences.{items_of};
ghost use Rattle.edi_tree.specs.Tree as text;
ghost use Rattle.edi_tree.specs.View.{names, group_of, groups_of, type_decl_of};
ghost use Rattle.edi_unit.specs.Types.{is_elementary};
ghost use Rattle.edi_unit.specs.TypeTables.{named_types, ordinal_types, HasOrderedBounds};
ghost use Rattle.edi_static.specs.Prelude.{Declares, JudgedAnswers, MayDeclare, environment, shape_of};
ghost use Rattle.edi_static.specs.Types as spec;

use crate::constants::constant;
use crate::faults::{Judged, StaticKind};
use crate::known::{Known, fault, number};
use crate::records::{FieldNames, fields_of};
use edi_scope::Entity;
use edi_tree::{Array, Enum, Name, Record, Set, TypeDecl};
use edi_unit::Shape;
use indexmap::IndexSet;
use std::alloc::Global;

/// An enumeration has at most so many constants.
const MOST_CONSTANTS: usize = 32768;

/// The constant of this ordinal, whose type is known.
fn enum_constant(
    known: &mut Known,
    alloc: Global,
    export: bool,
    of: u32,
    ordinal: usize,
    name: &Name,
) -> Judged<()>
    requires may { MayDeclare export (environment known.old) }
    requires fits { (of < length known.old.types) × IsTrue (is_elementary known.old.types of) }
    ensures exact { JudgedAnswers (λ _. environment known.new) result (spec.enum_constant export of ordinal name.now (environment known.old)) }
    ensures declares { Declares export result (environment known.old) (environment known.new) }
    ensures types { OnOk result (known.new.types ≡ known.old.types) }
{
    if ordinal < MOST_CONSTANTS {
        let ordinal = ordinal as i16;
        return known.declare(alloc, export, name, Entity::Constant { of, ordinal });
    }
    known.declare(alloc, export, name, Entity::Types(of))?;
    fault(StaticKind::Range, name.line)
}

/// The constants of an enumeration, whose type is known.
fn enum_constants(
    known: &mut Known,
    alloc: Global,
    export: bool,
    of: u32,
    declared: &Enum,
) -> Judged<()>
    requires may { MayDeclare export (environment known.old) }
    requires fits { (of < length known.old.types) × IsTrue (is_elementary known.old.types of) }
    ensures exact { JudgedAnswers (λ _. environment known.new) result
        (spec.enum_constants export of 0 (text.next_name declared.now.first (names (items_of declared.now.more))) (environment known.old)) }
    ensures declares { Declares export result (environment known.old) (environment known.new) }
{
    enum_constant(known, alloc, export, of, 0, &declared.first)?;
    let mut ordinal = 1;
    for name in declared.more.items() {
        enum_constant(known, alloc, export, of, ordinal, name)?;
        ordinal += 1;
    }
    Ok(())
}

/// The type is put behind the others, and its name is declared before its constants.
fn enum_decl(known: &mut Known, alloc: Global, export: bool, declared: &Enum) -> Judged<()>
    requires may { MayDeclare export (environment known.old) }
    ensures exact { JudgedAnswers (λ _. environment known.new) result
        (spec.enum_decl export declared.now.name (text.next_name declared.now.first (names (items_of declared.now.more))) (environment known.old)) }
    ensures declares { Declares export result (environment known.old) (environment known.new) }
{
    let of = known.types.len();
    let constants = number(declared.more.len() + 1)?;
    known.push_type(alloc, Shape::Enum(constants), IndexSet::new(alloc))?;
    known.declare(alloc, export, &declared.name, Entity::Types(of))?;
    enum_constants(known, alloc, export, of, declared)
}

/// A type takes at most 65,535 words; it is put behind the others, and its name is declared after its parts have been judged.
fn declare_type(
    known: &mut Known,
    alloc: Global,
    export: bool,
    name: &Name,
    shape: Shape,
    fields: FieldNames,
) -> Judged<()>
    requires may { MayDeclare export (environment known.old) }
    requires named { All (λ t. t < length known.old.types) (named_types (shape_of shape)) }
    requires elementary { All (λ t. IsTrue (is_elementary known.old.types t)) (ordinal_types (shape_of shape)) }
    requires ordered { HasOrderedBounds (shape_of shape) }
    ensures exact { JudgedAnswers (λ _. environment known.new) result
        (spec.declare_type export name.now (shape_of shape) (map (λ field. field.items) fields.keys) (environment known.old)) }
    ensures declares { Declares export result (environment known.old) (environment known.new) }
{
    if !known.types.is_declarable(&shape) {
        return fault(StaticKind::Range, name.line);
    }
    let of = known.types.len();
    known.push_type(alloc, shape, fields)?;
    known.declare(alloc, export, name, Entity::Types(of))
}

fn record_decl(known: &mut Known, alloc: Global, export: bool, declared: &Record) -> Judged<()>
    requires may { MayDeclare export (environment known.old) }
    ensures exact { JudgedAnswers (λ _. environment known.new) result
        (spec.type_decl export (text.record_decl declared.now.name (group_of declared.now.first) (groups_of declared.now.more)) (environment known.old)) }
    ensures declares { Declares export result (environment known.old) (environment known.new) }
{
    let fields = fields_of(known, alloc, declared)?;
    let shape = Shape::Record(fields.types);
    declare_type(known, alloc, export, &declared.name, shape, fields.names)
}

/// The bounds are of one elementary type, and the lower one is not above the upper one.
fn array_decl(known: &mut Known, alloc: Global, export: bool, declared: &Array) -> Judged<()>
    requires may { MayDeclare export (environment known.old) }
    ensures exact { JudgedAnswers (λ _. environment known.new) result
        (spec.array_decl export declared.now.name declared.now.lower declared.now.upper declared.now.element (environment known.old)) }
    ensures declares { Declares export result (environment known.old) (environment known.new) }
{
    let lower = constant(known, &declared.lower)?;
    let upper = constant(known, &declared.upper)?;
    let element = known.type_named(&declared.element)?;
    if lower.of != upper.of {
        return fault(StaticKind::Types, declared.name.line);
    }
    if lower.ordinal > upper.ordinal {
        return fault(StaticKind::Range, declared.name.line);
    }
    let shape = Shape::Array {
        index: lower.of,
        lo: lower.ordinal,
        hi: upper.ordinal,
        element,
    };
    declare_type(
        known,
        alloc,
        export,
        &declared.name,
        shape,
        IndexSet::new(alloc),
    )
}

/// The base is elementary.
fn set_decl(known: &mut Known, alloc: Global, export: bool, declared: &Set) -> Judged<()>
    requires may { MayDeclare export (environment known.old) }
    ensures exact { JudgedAnswers (λ _. environment known.new) result (spec.set_decl export declared.now.name declared.now.base (environment known.old)) }
    ensures declares { Declares export result (environment known.old) (environment known.new) }
{
    let base = known.type_named(&declared.base)?;
    if !known.is_elementary(base) {
        return fault(StaticKind::Types, declared.base.line);
    }
    declare_type(
        known,
        alloc,
        export,
        &declared.name,
        Shape::Set(base),
        IndexSet::new(alloc),
    )
}

/// A declaration of a type.
pub fn type_decl(known: &mut Known, alloc: Global, export: bool, declared: &TypeDecl) -> Judged<()>
    requires may { MayDeclare export (environment known.old) }
    ensures exact { JudgedAnswers (λ _. environment known.new) result (spec.type_decl export (type_decl_of declared.now) (environment known.old)) }
    ensures declares { Declares export result (environment known.old) (environment known.new) }
{
    match declared {
        TypeDecl::Enum(declared) => enum_decl(known, alloc, export, declared),
        TypeDecl::Record(declared) => record_decl(known, alloc, export, declared),
        TypeDecl::Array(declared) => array_decl(known, alloc, export, declared),
        TypeDecl::Set(declared) => set_decl(known, alloc, export, declared),
    }
}
