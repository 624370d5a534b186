//! The rules on variables.

ghost use Rattle.std.specs.Prelude.{◌≡◌, ◌<◌, OnOk, length};
ghost use Rattle.edi_tree.specs.View.{group_of, var_list_of};
ghost use Rattle.edi_static.specs.Prelude.{Declares, JudgedAnswers, MayDeclare, environment};
ghost use Rattle.edi_static.specs.Types as spec;

use crate::faults::Judged;
use crate::known::Known;
use edi_scope::Entity;
use edi_tree::{Group, Name, VarList};
use std::alloc::Global;

/// A declared variable belongs to the block in which it stands, also in a module.
fn variable_decl(known: &mut Known, alloc: Global, export: bool, of: u32, name: &Name) -> Judged<()>
    requires may { MayDeclare export (environment known.old) }
    requires fits { of < length known.old.types }
    ensures exact { JudgedAnswers (λ _. environment known.new) result (spec.variable_decl export of name.now (environment known.old)) }
    ensures declares { Declares export result (environment known.old) (environment known.new) }
    ensures types { OnOk result (known.new.types ≡ known.old.types) }
{
    let entity = Entity::Variable {
        block: known.here(),
        variable: known.next_variable()?,
        of,
    };
    known.declare(alloc, export, name, entity)?;
    known.add_variable(alloc, of)
}

/// In a group the type is judged first, then the names in their order.
fn variable_group(known: &mut Known, alloc: Global, export: bool, group: &Group) -> Judged<()>
    requires may { MayDeclare export (environment known.old) }
    ensures exact { JudgedAnswers (λ _. environment known.new) result (spec.variables_of_group export (group_of group.now) (environment known.old)) }
    ensures declares { Declares export result (environment known.old) (environment known.new) }
{
    let of = known.type_named(&group.type_name)?;
    variable_decl(known, alloc, export, of, &group.first)?;
    for name in group.more.items() {
        variable_decl(known, alloc, export, of, name)?;
    }
    Ok(())
}

/// A declaration of variables.
pub fn var_list(known: &mut Known, alloc: Global, export: bool, list: &VarList) -> Judged<()>
    requires may { MayDeclare export (environment known.old) }
    ensures exact { JudgedAnswers (λ _. environment known.new) result (spec.var_list export (var_list_of list.now) (environment known.old)) }
    ensures declares { Declares export result (environment known.old) (environment known.new) }
{
    variable_group(known, alloc, export, &list.first)?;
    for group in list.more.items() {
        variable_group(known, alloc, export, group)?;
    }
    Ok(())
}
