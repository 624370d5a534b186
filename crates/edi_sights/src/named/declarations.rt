//! The names of procedures and modules.

ghost use Rattle.std.specs.Prelude.{◌≡◌, OnOk};
ghost use Rattle.edi_tree.specs.View.{declaration_of, item_of, member_of, module_of, procedure_of};
ghost use Rattle.edi_sights.specs.named.Naming as spec;
ghost use Rattle.edi_sights.specs.named.Views.{naming_of};

use crate::named::statements::list_named;
use crate::named::walk::{
    Walk, add_headed, add_type, begin, complete, declare, post_block, put_begun, rename, take_begun,
};
use edi_tree::{Declaration, Item, Member, Module, Procedure};
use std::alloc::{AllocError, Global};

/// A procedure behind its heading, with its block.
#[cycle(namings)]
pub(crate) fn procedure_named(
    procedure: &Procedure,
    walk: &mut Walk,
    alloc: Global,
    block: u32,
) -> Result<(), AllocError>
    ensures exact { OnOk result (naming_of walk.new ≡ spec.procedure_named block (procedure_of procedure.now) (naming_of walk.old)) }
{
    let begun = take_begun(walk, alloc);
    for declaration in procedure.declarations.items() {
        declaration_named(declaration, walk, alloc, block)?;
    }
    list_named(&procedure.list, walk, alloc)?;
    put_begun(walk, begun);
    Ok(())
}

#[cycle(namings)]
fn item_named(item: &Item, walk: &mut Walk, alloc: Global, block: u32) -> Result<(), AllocError>
    ensures exact { OnOk result (naming_of walk.new ≡ spec.item_named block (item_of item.now) (naming_of walk.old)) }
{
    match item {
        Item::ConstList(_) => Ok(()),
        Item::TypeDecl(declared) => add_type(walk, alloc, declared),
        Item::VarList(list) => declare(walk, alloc, block, list),
        Item::Procedure(procedure) => {
            let own = add_headed(walk, alloc, &procedure.heading)?;
            procedure_named(procedure, walk, alloc, own)
        }
        Item::Pre(heading) => begin(walk, alloc, heading),
        Item::Post(procedure) => {
            let own = post_block(walk, &procedure.heading)?;
            rename(walk, alloc, own, &procedure.heading)?;
            procedure_named(procedure, walk, alloc, own)?;
            complete(walk, &procedure.heading);
            Ok(())
        }
    }
}

#[cycle(namings)]
fn module_named(
    inner: &Module,
    walk: &mut Walk,
    alloc: Global,
    block: u32,
) -> Result<(), AllocError>
    ensures exact { OnOk result (naming_of walk.new ≡ spec.module_named block (module_of inner.now) (naming_of walk.old)) }
{
    let begun = take_begun(walk, alloc);
    for one in inner.members.items() {
        member_named(one, walk, alloc, block)?;
    }
    list_named(&inner.list, walk, alloc)?;
    put_begun(walk, begun);
    Ok(())
}

#[cycle(namings)]
fn member_named(
    member: &Member,
    walk: &mut Walk,
    alloc: Global,
    block: u32,
) -> Result<(), AllocError>
    ensures exact { OnOk result (naming_of walk.new ≡ spec.member_named block (member_of member.now) (naming_of walk.old)) }
{
    match member {
        Member::Item(one) => item_named(one, walk, alloc, block),
        Member::Exported(one) => item_named(one, walk, alloc, block),
        Member::Module(one) => module_named(one, walk, alloc, block),
    }
}

#[cycle(namings)]
fn declaration_named(
    declaration: &Declaration,
    walk: &mut Walk,
    alloc: Global,
    block: u32,
) -> Result<(), AllocError>
    ensures exact { OnOk result (naming_of walk.new ≡ spec.declaration_named block (declaration_of declaration.now) (naming_of walk.old)) }
{
    match declaration {
        Declaration::Item(one) => item_named(one, walk, alloc, block),
        Declaration::Module(one) => module_named(one, walk, alloc, block),
    }
}
