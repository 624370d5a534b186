//! The names that a heading, a declaration of variables and a declaration of a type give.

ghost use Rattle.std.specs.Prelude.{◌≡◌, ◌∷◌, ◌++◌, [], map, codes, IfOk, OnOk};
ghost use Rattle.edi_tree.specs.View.{group_of, groups as groups_listed, heading_of, more_params, names as names_listed, param_of, type_decl_of, var_list_of};
ghost use Rattle.edi_tree.specs.Sequences.{items_of};
ghost use Rattle.edi_static.specs.Headings as headings;
ghost use Rattle.edi_sights.specs.named.Names as spec;

use edi_lex::Text;
use edi_tree::{Enum, Group, Heading, Name, Param, TypeDecl, VarList};
use std::alloc::{AllocError, Global};

/// The spelling of a heading's name.
pub(crate) fn name_of(heading: &Heading) -> &[u8]
    ensures exact { result.now ≡ spec.heading_name (heading_of heading.now) }
{
    heading.name.text.as_slice()
}

/// A copy of a name.
fn copy_name(alloc: Global, name: &Name) -> Result<Name, AllocError>
    ensures exact { IfOk result (λ copy. copy ≡ name.now) }
{
    Ok(Name {
        text: Text::from_slice(alloc, name.text.as_slice())?,
        line: name.line,
    })
}

/// A copy of a heading's name.
pub(crate) fn own_name(alloc: Global, heading: &Heading) -> Result<Name, AllocError>
    ensures exact { IfOk result (λ name. name ≡ headings.own_name (heading_of heading.now)) }
{
    let name = copy_name(alloc, &heading.name)?;
    Ok(name)
}

/// Puts a name behind others.
fn put_name(alloc: Global, name: &[u8], into: &mut Vec<Text>) -> Result<(), AllocError>
    ensures exact { OnOk result (into.new.items ≡ into.old.items ++ name.now ∷ []) }
{
    let text = Text::from_slice(alloc, name)?;
    into.push(text)?;
    Ok(())
}

/// Puts names behind others.
fn put_names(alloc: Global, names: &[Name], into: &mut Vec<Text>) -> Result<(), AllocError>
    ensures exact { OnOk result (into.new.items ≡ into.old.items ++ spec.spellings (names_listed names.now)) }
{
    for name in names {
        put_name(alloc, name.text.as_slice(), into)?;
    }
    Ok(())
}

/// Puts the names of a group behind others.
fn put_group(alloc: Global, group: &Group, into: &mut Vec<Text>) -> Result<(), AllocError>
    ensures exact { OnOk result (into.new.items ≡ into.old.items ++ spec.group_names (group_of group.now)) }
{
    put_name(alloc, group.first.text.as_slice(), into)?;
    put_names(alloc, group.more.items(), into)
}

/// Puts the names of groups behind others.
fn put_groups(alloc: Global, groups: &[Group], into: &mut Vec<Text>) -> Result<(), AllocError>
    ensures exact { OnOk result (into.new.items ≡ into.old.items ++ spec.groups_names (groups_listed (map group_of groups.now))) }
{
    for group in groups {
        put_group(alloc, group, into)?;
    }
    Ok(())
}

/// Puts the names of declared variables behind others.
pub(crate) fn put_declared(
    alloc: Global,
    list: &VarList,
    into: &mut Vec<Text>,
) -> Result<(), AllocError>
    ensures exact { OnOk result (into.new.items ≡ into.old.items ++ spec.declared_names (var_list_of list.now)) }
{
    put_group(alloc, &list.first, into)?;
    put_groups(alloc, list.more.items(), into)
}

/// Puts the names of a parameter's group, or the name of a procedure parameter, behind others.
fn put_param(alloc: Global, param: &Param, into: &mut Vec<Text>) -> Result<(), AllocError>
    ensures exact { OnOk result (into.new.items ≡ into.old.items ++ spec.param_names (param_of param.now)) }
{
    match param {
        Param::Value(group) => put_group(alloc, group, into),
        Param::Var(group) => put_group(alloc, group, into),
        Param::Heading(inner) => put_name(alloc, name_of(inner), into),
    }
}

/// Puts the names of parameters behind others.
fn put_params(alloc: Global, params: &[Param], into: &mut Vec<Text>) -> Result<(), AllocError>
    ensures exact { OnOk result (into.new.items ≡ into.old.items ++ spec.more_param_names (more_params (map param_of params.now))) }
{
    for param in params {
        put_param(alloc, param, into)?;
    }
    Ok(())
}

/// The function variable of a function, as the text writes it.
fn function_variable(alloc: Global, name: &Name) -> Result<Text, AllocError>
    ensures exact { IfOk result (λ text. text ≡ codes "val " ++ name.now.text) }
{
    let mut bytes = Vec::from_slice(alloc, b"val ")?;
    bytes.extend_from_slice(name.text.as_slice())?;
    Ok(Text::from_vec(bytes))
}

/// The function variable, if there is a result.
fn result_names(alloc: Global, function: &Name, of: &Option<Name>) -> Result<Vec<Text>, AllocError>
    ensures exact { IfOk result (λ names. names.items ≡ spec.result_names function.now.text of.now) }
{
    let mut names = Vec::new(alloc);
    if of.is_some() {
        let text = function_variable(alloc, function)?;
        names.push(text)?;
    }
    Ok(names)
}

/// The variables that a heading gives its block.
pub(crate) fn heading_names(alloc: Global, heading: &Heading) -> Result<Vec<Text>, AllocError>
    ensures exact { IfOk result (λ names. names.items ≡ spec.heading_names (heading_of heading.now)) }
{
    let mut names = result_names(alloc, &heading.name, &heading.result)?;
    put_params(alloc, heading.params.items(), &mut names)?;
    Ok(names)
}

/// The constants of an enumeration.
fn enum_names(alloc: Global, declared: &Enum) -> Result<Vec<Text>, AllocError>
    ensures exact { IfOk result (λ names. names.items ≡ declared.now.first.text ∷ spec.spellings (names_listed (items_of declared.now.more))) }
{
    let mut names = Vec::new(alloc);
    put_name(alloc, declared.first.text.as_slice(), &mut names)?;
    put_names(alloc, declared.more.items(), &mut names)?;
    Ok(names)
}

/// The constants of a type.
pub(crate) fn constant_names(alloc: Global, declared: &TypeDecl) -> Result<Vec<Text>, AllocError>
    ensures exact { IfOk result (λ names. names.items ≡ spec.constant_names (type_decl_of declared.now)) }
{
    match declared {
        TypeDecl::Enum(one) => enum_names(alloc, one),
        TypeDecl::Record(_) => Ok(Vec::new(alloc)),
        TypeDecl::Array(_) => Ok(Vec::new(alloc)),
        TypeDecl::Set(_) => Ok(Vec::new(alloc)),
    }
}
