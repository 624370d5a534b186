//! The rules on the headings of procedures, also of split ones.

ghost use Rattle.std.specs.Prelude.{◌≡◌, ◌≤◌, ◌<◌, ◌++◌, ◌∷◌, [], length, unwrap_or, Err, IsTrue, IfOk, IfSome, OnErr, OnOk};
ghost use Rattle.edi_scope.specs.declared.entity.Entity.TheVariants as entity;
ghost use Rattle.edi_scope.specs.Scope.{in_module, outside};
ghost use Rattle.edi_tree.specs.View.{heading_of};
ghost use Rattle.edi_static.specs.Prelude.{JudgedAnswers, Proper, asked_of, environment, gives, heading_result};
ghost use Rattle.edi_static.specs.Environment.{heading_at, same_heading};
ghost use Rattle.edi_static.specs.Headings.{round};
ghost use Rattle.edi_static.specs.Environment as environments;
ghost use Rattle.edi_static.specs.Declarations as spec;
ghost use Rattle.edi_sema.specs.Frames.{HeadingBegins, Comes, StandsToDeclare};
ghost use Rattle.edi_sema.specs.Splits.{block_named, post_block, posted, with_begun};

use edi_lex::Text;
use edi_scope::Entity;
use edi_static::{
    Asked, Judged, Known, StaticFault, StaticKind, fault, heading_parts, must, no_asked, number,
    put, same_asked,
};
use edi_tree::{Heading, Name};
use edi_unit::BlockKind;
use std::alloc::Global;

/// A procedure with a result is a function.
fn kind_of(asked: &Asked) -> BlockKind
    ensures exact { result ≡ spec.kind_of (heading_result (asked_of asked.now)) }
{
    match asked.result {
        None => BlockKind::Procedure,
        Some(_) => BlockKind::Function,
    }
}

/// The block of a heading whose scope is the innermost, and its name in the scope round it.
pub(crate) fn begin_block_of(
    known: &mut Known,
    alloc: Global,
    export: bool,
    kind: BlockKind,
    name: &Name,
    block: u32,
    asked: Asked,
) -> Judged<u32>
    requires depth { 1 < length known.old.scopes }
    requires module { IsTrue export → IsTrue (in_module (outside known.old.scopes)) }
    requires proper { Proper (environment known.old) }
    requires fits { block ≤ length (environment known.old).headings }
    ensures exact { JudgedAnswers (λ _. environment known.new) result
        (round (environments.declare export name.now (entity.Procedure block))
        (spec.with_heading kind (record { env = environment known.old; asks = asked_of asked }))) }
    ensures number { IfOk result (λ n. n ≡ block) }
    ensures proper { OnOk result (Proper (environment known.new)) }
{
    known.begin_block(alloc, kind, asked)?;
    known.declare_round(alloc, export, name, Entity::Procedure { block })?;
    Ok(block)
}

/// The number of the next block.
fn next_block(known: &Known) -> Judged<u32>
    ensures exact { JudgedAnswers (λ n. n) result (gives (length (environment known.now).blocks)) }
{
    number(known.blocks.len())
}

/// A procedure that begins: its block is there and its name is declared.
pub fn begin_procedure(
    known: &mut Known,
    alloc: Global,
    export: bool,
    heading: &Heading,
) -> Judged<u32>
    requires stands { StandsToDeclare export (environment known.old) }
    ensures exact { JudgedAnswers (λ _. environment known.new) result (spec.begin_procedure export (heading_of heading.now) (environment known.old)) }
    ensures number { IfOk result (λ block. block ≡ length (environment known.old).blocks) }
    ensures begins { OnOk result (HeadingBegins (environment known.old) (environment known.new)) }
{
    let block = next_block(known)?;
    let asked = heading_parts(known, alloc, block, heading)?;
    let kind = kind_of(&asked);
    begin_block_of(known, alloc, export, kind, &heading.name, block, asked)
}

/// The block of the procedure of this name that is begun, if there is one.
fn begun_block(known: &Known, name: &Name) -> Option<u32>
    ensures exact { result ≡ block_named (environment known.now).begun name.now.text }
{
    known.begun.block_of(name.text.as_slice())
}

/// Whether the heading of a block has this shape; an unknown block asks nothing.
fn has_shape(known: &Known, alloc: Global, block: u32, asked: &Asked) -> bool
    ensures exact { result ≡ same_heading (heading_at (environment known.now).headings block) (asked_of asked.now) }
{
    match known.headings.get(block as usize) {
        Some(earlier) => same_asked(earlier, asked),
        None => same_asked(&no_asked(alloc), asked),
    }
}

/// An export on a `post` gives the name to the scope round the module.
fn give_export(
    known: &mut Known,
    alloc: Global,
    export: bool,
    name: &Name,
    block: u32,
) -> Judged<()>
    requires module { IsTrue export → IsTrue (in_module (outside known.old.scopes)) }
    requires proper { Proper (environment known.old) }
    requires fits { block < length (environment known.old).headings }
    ensures exact { JudgedAnswers (λ _. environment known.new) result (spec.post_export export name.now block (environment known.old)) }
    ensures proper { OnOk result (Proper (environment known.new)) }
{
    if export {
        known.give_outside_round(alloc, name, Entity::Procedure { block })
    } else {
        Ok(())
    }
}

/// A `post` has an earlier `pre` of its name in the same scope, not completed, and of the same shape.
fn complete(
    known: &mut Known,
    alloc: Global,
    export: bool,
    name: &Name,
    found: Option<u32>,
    block: u32,
    asked: &Asked,
) -> Judged<u32>
    requires module { IsTrue export → IsTrue (in_module (outside known.old.scopes)) }
    requires proper { Proper (environment known.old) }
    requires fits { IfSome found (λ b. block < length (environment known.old).headings) }
    requires same { IfSome found (λ b. b ≡ block) }
    ensures exact { JudgedAnswers (λ _. environment known.new) result
        (posted export name.now found block (asked_of asked.now) (environment known.old)) }
    ensures number { IfOk result (λ n. n ≡ block) }
    ensures proper { OnOk result (Proper (environment known.new)) }
{
    match found {
        None => fault(StaticKind::Split, name.line),
        Some(_) => {
            must(
                has_shape(known, alloc, block, asked),
                StaticKind::Split,
                name.line,
            )?;
            give_export(known, alloc, export, name, block)?;
            Ok(block)
        }
    }
}

/// The block of a `post`; without its `pre` it will be refused, and has none.
fn block_of(known: &Known, found: Option<u32>) -> Judged<u32>
    ensures exact { JudgedAnswers (λ n. n) result (gives (unwrap_or found (length (environment known.now).blocks))) }
{
    match found {
        Some(block) => Ok(block),
        None => next_block(known),
    }
}

/// A `post` is compared with its `pre` after its heading's parts.
pub fn begin_post(known: &mut Known, alloc: Global, export: bool, heading: &Heading) -> Judged<u32>
    requires stands { StandsToDeclare export (environment known.old) }
    ensures exact { JudgedAnswers (λ _. environment known.new) result (spec.begin_post export (heading_of heading.now) (environment known.old)) }
    ensures number { IfOk result (λ block. block ≡ post_block (heading_of heading.now) (environment known.old)) }
    ensures begins { OnOk result (HeadingBegins (environment known.old) (environment known.new)) }
{
    let found = begun_block(known, &heading.name);
    let block = block_of(known, found)?;
    let asked = heading_parts(known, alloc, block, heading)?;
    complete(known, alloc, export, &heading.name, found, block, &asked)
}

/// A copy of a name.
fn copy_name(alloc: Global, name: &Name) -> Result<Name, StaticFault>
    ensures ok { IfOk result (λ copy. copy ≡ name.now) }
    ensures err { OnErr result (result ≡ Err StaticFault.NoMemory) }
{
    Ok(Name {
        text: Text::from_slice(alloc, name.text.as_slice())?,
        line: name.line,
    })
}

/// A procedure is begun.
fn begin_split(known: &mut Known, alloc: Global, name: Name, block: u32) -> Judged<()>
    ensures exact { JudgedAnswers (λ _. environment known.new) result
        (gives (with_begun ((environment known.old).begun ++ record { name = name; block = block } ∷ []) (environment known.old))) }
{
    known.begun.push(alloc, name, block)?;
    Ok(())
}

/// A `pre` alone: its heading's scope ends at once.
pub fn pre_decl(known: &mut Known, alloc: Global, export: bool, heading: &Heading) -> Judged<()>
    requires stands { StandsToDeclare export (environment known.old) }
    ensures exact { JudgedAnswers (λ _. environment known.new) result (spec.pre_decl export (heading_of heading.now) (environment known.old)) }
    ensures comes { OnOk result (Comes (environment known.old) (environment known.new)) }
{
    let block = begin_procedure(known, alloc, export, heading)?;
    known.leave();
    let name = copy_name(alloc, &heading.name)?;
    begin_split(known, alloc, name, block)
}

/// At the `begin` of a scope each procedure that is begun in it has been completed.
pub(crate) fn all_completed(known: &Known) -> Judged<()>
    ensures exact { JudgedAnswers (λ _. tt) result (spec.all_completed (environment known.now).begun) }
{
    match known.begun.first_line() {
        Some(line) => fault(StaticKind::Split, line),
        None => Ok(()),
    }
}

/// A procedure that is begun no longer waits for its `post`.
pub fn completed(known: &mut Known, name: &Name)
    ensures exact { environment known.new ≡ with_begun (spec.without_begun name.now.text (environment known.old).begun) (environment known.old) }
{
    known.begun.complete(name.text.as_slice());
}
