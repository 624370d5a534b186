//! The layers of trees of declarations, each with the plain tree for which it stands.

ghost use Rattle.std.specs.Prelude.{◌≡◌};
ghost use Rattle.edi_tree.specs.Tree as tree;
ghost use Rattle.edi_tree.specs.View.{const_list_of, type_decl_of, var_list_of, heading_of, list_of, procedure_of, item_of, module_of, member_of, members_of};
ghost use Rattle.edi_tree.specs.View.{declaration_of, declarations_of};

use edi_tree::{
    ConstList, Declaration, Declarations, Heading, Item, List, Member, Members, Module, Procedure,
    TypeDecl, VarList,
};

/// `Heading { Declaration } "begin" List "end"`, with the line of its `end`
pub fn make_procedure(
    heading: Heading,
    declarations: Declarations,
    list: List,
    end: u16,
) -> Procedure
    ensures seen { procedure_of result ≡ tree.procedure (heading_of heading) (declarations_of declarations) (list_of list) end }
{
    Procedure {
        heading,
        declarations,
        list,
        end,
    }
}

/// `"module" { Member } "begin" List "end"`
pub fn make_module(members: Members, list: List) -> Module
    ensures seen { module_of result ≡ tree.module_with (members_of members) (list_of list) }
{
    Module { members, list }
}

/// `ConstList`
pub fn make_const_item(const_list: ConstList) -> Item
    ensures seen { item_of result ≡ tree.const_item (const_list_of const_list) }
{
    Item::ConstList(const_list)
}

/// `TypeDecl`
pub fn make_type_item(type_decl: TypeDecl) -> Item
    ensures seen { item_of result ≡ tree.type_item (type_decl_of type_decl) }
{
    Item::TypeDecl(type_decl)
}

/// `VarList`
pub fn make_var_item(var_list: VarList) -> Item
    ensures seen { item_of result ≡ tree.var_item (var_list_of var_list) }
{
    Item::VarList(var_list)
}

/// `Procedure`
pub fn make_procedure_item(procedure: Procedure) -> Item
    ensures seen { item_of result ≡ tree.procedure_item (procedure_of procedure) }
{
    Item::Procedure(procedure)
}

/// `"pre" Heading`
pub fn make_pre(heading: Heading) -> Item
    ensures seen { item_of result ≡ tree.pre_item (heading_of heading) }
{
    Item::Pre(heading)
}

/// `"post" Procedure`
pub fn make_post(procedure: Procedure) -> Item
    ensures seen { item_of result ≡ tree.post_item (procedure_of procedure) }
{
    Item::Post(procedure)
}

/// An item without `*`
pub fn make_item_member(item: Item) -> Member
    ensures seen { member_of result ≡ tree.item_member (item_of item) }
{
    Member::Item(item)
}

/// `"*" Item`
pub fn make_exported(item: Item) -> Member
    ensures seen { member_of result ≡ tree.exported_member (item_of item) }
{
    Member::Exported(item)
}

/// A module in a module
pub fn make_module_member(inner: Module) -> Member
    ensures seen { member_of result ≡ tree.module_member (module_of inner) }
{
    Member::Module(inner)
}

/// An item in a procedure
pub fn make_item_declaration(item: Item) -> Declaration
    ensures seen { declaration_of result ≡ tree.item_declaration (item_of item) }
{
    Declaration::Item(item)
}

/// A module in a procedure
pub fn make_module_declaration(inner: Module) -> Declaration
    ensures seen { declaration_of result ≡ tree.module_declaration (module_of inner) }
{
    Declaration::Module(inner)
}
