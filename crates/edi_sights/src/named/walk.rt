//! What has been named before a place of the text, and how more is named.

ghost use Rattle.std.specs.Prelude.{◌≡◌, ◌<◌, [], length, map, slice_set, vec_len, IfOk, OnOk};
ghost use Rattle.edi_tree.specs.View.{heading_of, type_decl_of, var_list_of};
ghost use Rattle.edi_static.specs.Declarations.{without_begun};
ghost use Rattle.edi_sights.specs.named.Names.{constant_names, declared_names, heading_name, heading_names};
ghost use Rattle.edi_sights.specs.named.Naming as spec;
ghost use Rattle.edi_sights.specs.named.Views.{named_of, naming_of};

use crate::awaits::small;
use crate::named::answer::NamedBlock;
use crate::named::spelled::{constant_names, heading_names, name_of, own_name, put_declared};
use edi_lex::Text;
use edi_static::Splits;
use edi_tree::{Heading, TypeDecl, VarList};
use std::alloc::{AllocError, Global};

/// What has been named so far.
#[derive(Drop)]
pub(crate) struct Walk {
    pub(crate) blocks: Vec<NamedBlock>,
    pub(crate) constants: Vec<Vec<Text>>,
    /// The procedures of the innermost scope that are begun, in the order of the text.
    pub(crate) begun: Splits,
}

/// One more block.
fn add_block(walk: &mut Walk, block: NamedBlock) -> Result<(), AllocError>
    ensures exact { OnOk result (naming_of walk.new ≡ spec.with_block (named_of block) (naming_of walk.old)) }
{
    walk.blocks.push(block)?;
    Ok(())
}

/// One more branch of a `cobegin`.
pub(crate) fn add_branch(walk: &mut Walk, alloc: Global) -> Result<(), AllocError>
    ensures exact { OnOk result (naming_of walk.new ≡ spec.with_block spec.nameless (naming_of walk.old)) }
{
    let branch = NamedBlock {
        name: Text::new(alloc),
        variables: Vec::new(alloc),
    };
    add_block(walk, branch)
}

/// The block of a heading.
fn headed(alloc: Global, heading: &Heading) -> Result<NamedBlock, AllocError>
    ensures exact { IfOk result (λ block. named_of block ≡ spec.headed (heading_of heading.now)) }
{
    let name = Text::from_slice(alloc, name_of(heading))?;
    let variables = heading_names(alloc, heading)?;
    Ok(NamedBlock { name, variables })
}

/// One more block, that of a heading. The answer is its number.
pub(crate) fn add_headed(
    walk: &mut Walk,
    alloc: Global,
    heading: &Heading,
) -> Result<u32, AllocError>
    ensures exact { OnOk result (naming_of walk.new ≡ spec.with_block (spec.headed (heading_of heading.now)) (naming_of walk.old)) }
    ensures number { IfOk result (λ n. n ≡ length (naming_of walk.old).blocks) }
{
    let number = small(walk.blocks.len())?;
    let block = headed(alloc, heading)?;
    add_block(walk, block)?;
    Ok(number)
}

/// More declared variables of a block.
fn declare_at(
    blocks: &mut Vec<NamedBlock>,
    alloc: Global,
    at: usize,
    list: &VarList,
) -> Result<(), AllocError>
    requires inside { at < vec_len blocks.old }
    ensures exact { OnOk result (map named_of blocks.new.items ≡ slice_set (map named_of blocks.old.items) at
        (spec.more_variables (declared_names (var_list_of list.now)) (spec.named_at (map named_of blocks.old.items) at))) }
{
    put_declared(alloc, list, &mut blocks[at].variables)?;
    Ok(())
}

/// More declared variables of a block.
pub(crate) fn declare(
    walk: &mut Walk,
    alloc: Global,
    block: u32,
    list: &VarList,
) -> Result<(), AllocError>
    ensures exact { OnOk result (naming_of walk.new ≡ spec.with_variables block (declared_names (var_list_of list.now)) (naming_of walk.old)) }
{
    let at = block as usize;
    if at >= walk.blocks.len() {
        return Ok(());
    }
    declare_at(&mut walk.blocks, alloc, at, list)
}

/// New names of the variables of a block, if there are as many.
fn rename_block(block: &mut NamedBlock, names: Vec<Text>)
    ensures exact { named_of block.new ≡ spec.renamed names.items (named_of block.old) }
{
    if names.len() == block.variables.len() {
        block.variables = names;
    }
}

/// The same of the block of this number.
fn rename_at(blocks: &mut Vec<NamedBlock>, at: usize, names: Vec<Text>)
    requires inside { at < vec_len blocks.old }
    ensures exact { map named_of blocks.new.items ≡ slice_set (map named_of blocks.old.items) at
        (spec.renamed names.items (spec.named_at (map named_of blocks.old.items) at)) }
{
    rename_block(&mut blocks[at], names);
}

/// The names of the parameters in a `post`, with its block.
pub(crate) fn rename(
    walk: &mut Walk,
    alloc: Global,
    block: u32,
    heading: &Heading,
) -> Result<(), AllocError>
    ensures exact { OnOk result (naming_of walk.new ≡ spec.with_new_names block (heading_names (heading_of heading.now)) (naming_of walk.old)) }
{
    let names = heading_names(alloc, heading)?;
    let at = block as usize;
    if at < walk.blocks.len() {
        rename_at(&mut walk.blocks, at, names);
    }
    Ok(())
}

/// The constants of one more type.
pub(crate) fn add_type(
    walk: &mut Walk,
    alloc: Global,
    declared: &TypeDecl,
) -> Result<(), AllocError>
    ensures exact { OnOk result (naming_of walk.new ≡ spec.with_type (constant_names (type_decl_of declared.now)) (naming_of walk.old)) }
{
    let names = constant_names(alloc, declared)?;
    walk.constants.push(names)?;
    Ok(())
}

/// One more procedure is begun.
pub(crate) fn begin(walk: &mut Walk, alloc: Global, heading: &Heading) -> Result<(), AllocError>
    ensures exact { OnOk result (naming_of walk.new ≡ spec.begin (heading_of heading.now) (naming_of walk.old)) }
{
    let name = own_name(alloc, heading)?;
    let block = add_headed(walk, alloc, heading)?;
    walk.begun.push(alloc, name, block)
}

/// The block of a `post`.
pub(crate) fn post_block(walk: &Walk, heading: &Heading) -> Result<u32, AllocError>
    ensures exact { IfOk result (λ n. n ≡ spec.post_block (heading_name (heading_of heading.now)) (naming_of walk.now)) }
{
    match walk.begun.block_of(name_of(heading)) {
        Some(block) => Ok(block),
        None => small(walk.blocks.len()),
    }
}

/// Takes out the procedures that are begun.
pub(crate) fn take_begun(walk: &mut Walk, alloc: Global) -> Splits
    ensures exact { naming_of walk.new ≡ spec.with_begun [] (naming_of walk.old) }
    ensures begun { result ≡ (naming_of walk.old).begun }
{
    std::mem::replace(&mut walk.begun, Splits::new(alloc))
}

/// These procedures are begun.
pub(crate) fn put_begun(walk: &mut Walk, begun: Splits)
    ensures exact { naming_of walk.new ≡ spec.with_begun begun (naming_of walk.old) }
{
    walk.begun = begun;
}

/// A procedure that is begun no longer waits for its `post`.
pub(crate) fn complete(walk: &mut Walk, heading: &Heading)
    ensures exact { naming_of walk.new ≡ spec.with_begun (without_begun (heading_name (heading_of heading.now)) (naming_of walk.old).begun) (naming_of walk.old) }
{
    walk.begun.complete(name_of(heading));
}
