//! What a name can be used for.

ghost use Rattle.std.specs.Prelude.{◌≡◌, ◌&&◌, not, map, option_copied};
ghost use Rattle.edi_scope.specs.declared.entity.Entity.TheVariants as entity;
ghost use Rattle.edi_unit.specs.Headings.{heading_formals, no_formal};
ghost use Rattle.edi_unit.specs.Need.{block_at};
ghost use Rattle.edi_static.specs.Prelude.{JudgedAnswers, argument_of, asked_of, environment, formal_of, gives, list_items};
ghost use Rattle.edi_static.specs.Environment.{heading_at, no_heading, same_formals, same_heading};
ghost use Rattle.edi_static.specs.Fitting as spec;
ghost use Rattle.edi_static.specs.Views as view;
ghost use Rattle.edi_values.specs.Views.{asks_of, called_of, used_of};

use edi_scope::Entity;
use edi_static::{Asked, Formal, Judged, Known, StaticKind, fault, must, number, same_asked};
use edi_unit::{Argument, Callee, INT, List};

/// What is called or passed on, with its heading.
#[derive(Clone, Copy)]
pub struct Called<'a> {
    pub callee: Callee,
    /// What its heading asks. One that is not known asks nothing.
    pub asked: Option<&'a Asked>,
}

/// What a name before arguments can be.
#[derive(Clone, Copy)]
pub enum Use<'a> {
    /// A type.
    Constructs(u32),
    /// A procedure or function.
    Calls(Called<'a>),
    /// The standard procedure `halt`.
    Halts,
    /// None of these.
    Neither,
}

/// The number of the block round a block.
fn up(known: &Known, block: u32) -> u32
    ensures exact { result ≡ (block_at (environment known.now).blocks block).up }
{
    match known.blocks.get(block as usize) {
        Some(block) => block.up,
        None => 0,
    }
}

/// What the heading of this number asks.
fn heading_of(headings: &[Asked], number: u32) -> Option<&Asked>
    ensures exact { asks_of (option_copied result) ≡ heading_at (map asked_of headings.now) number }
{
    headings.get(number as usize)
}

/// A block is called in the block in which it is declared, so many steps out.
fn block_use<'a>(known: &'a Known, block: u32) -> Judged<Use<'a>>
    ensures exact { JudgedAnswers used_of result (gives (spec.use_of (environment known.now) (entity.Procedure block))) }
{
    let levels = number(known.steps_to(up(known, block)))?;
    Ok(Use::Calls(Called {
        callee: Callee::Block { levels, block },
        asked: heading_of(known.headings.as_slice(), block),
    }))
}

/// A procedure parameter is called in the block whose parameter it is.
fn formal_use<'a>(known: &'a Known, block: u32, variable: u32, shape: u32) -> Judged<Use<'a>>
    ensures exact { JudgedAnswers used_of result (gives (spec.use_of (environment known.now) (entity.Formal block variable shape))) }
{
    let levels = number(known.steps_to(block))?;
    Ok(Use::Calls(Called {
        callee: Callee::Formal { levels, variable },
        asked: heading_of(known.shapes.as_slice(), shape),
    }))
}

/// What an entity can be used for.
pub fn use_of<'a>(known: &'a Known, entity: Entity) -> Judged<Use<'a>>
    ensures exact { JudgedAnswers used_of result (gives (spec.use_of (environment known.now) entity)) }
{
    match entity {
        Entity::Types(of) => Ok(Use::Constructs(of)),
        Entity::Procedure { block } => block_use(known, block),
        Entity::Formal {
            block,
            variable,
            shape,
        } => formal_use(known, block, variable, shape),
        Entity::Halt => Ok(Use::Halts),
        Entity::Constant { .. } => Ok(Use::Neither),
        Entity::Variable { .. } => Ok(Use::Neither),
    }
}

impl<'a> Called<'a> {
    /// What is asked for each parameter.
    pub fn formals(&self) -> &'a [Formal]
        ensures exact { view.formals (map formal_of result.now) ≡ heading_formals (called_of self.now).asks }
    {
        match self.asked {
            Some(asked) => asked.formals.items(),
            None => &[],
        }
    }

    /// Whether there are as many parameters as arguments.
    #[tactic(auto, using(crate::proofs::Counts::counted))]
    fn takes_so_many(&self, arguments: usize) -> bool
        ensures exact { result ≡ spec.takes_so_many (called_of self.now).asks arguments }
    {
        self.formals().len() == arguments
    }

    /// Whether it is a function.
    fn is_function(&self) -> bool
        ensures exact { result ≡ spec.is_function (called_of self.now).asks }
    {
        match self.asked {
            Some(asked) => asked.result.is_some(),
            None => false,
        }
    }

    /// Whether it is a function with so many parameters.
    pub fn is_function_of(&self, arguments: usize) -> bool
        ensures exact { result ≡ (spec.is_function (called_of self.now).asks && spec.takes_so_many (called_of self.now).asks arguments) }
    {
        self.is_function() && self.takes_so_many(arguments)
    }

    /// Whether it is a procedure without result and with so many parameters.
    pub fn is_procedure_of(&self, arguments: usize) -> bool
        ensures exact { result ≡ (not (spec.is_function (called_of self.now).asks) && spec.takes_so_many (called_of self.now).asks arguments) }
    {
        !self.is_function() && self.takes_so_many(arguments)
    }

    /// The type of its result; `int` where it has none.
    pub fn result(&self) -> u32
        ensures exact { result ≡ spec.call_result (called_of self.now) }
    {
        match self.asked {
            Some(asked) => asked.result.unwrap_or(INT),
            None => INT,
        }
    }

    /// Whether its heading has this shape.
    fn has_shape(&self, asked: &Asked) -> bool
        ensures exact { result ≡ same_heading (called_of self.now).asks (asked_of asked.now) }
    {
        match self.asked {
            Some(own) => same_asked(own, asked),
            None => asks_nothing(asked),
        }
    }
}

#[tactic(auto, using(crate::proofs::Counts::no_formals))]
fn are_none(formals: &List<Formal>) -> bool
    ensures exact { result ≡ same_formals no_formal (view.formals (map formal_of (list_items formals.now))) }
{
    formals.is_empty()
}

/// Whether a heading is that of a procedure without parameters.
fn asks_nothing(asked: &Asked) -> bool
    ensures exact { result ≡ same_heading no_heading (asked_of asked.now) }
{
    are_none(&asked.formals) && asked.result.is_none()
}

/// An argument for a procedure parameter is a name alone, of a procedure other than `halt` with its shape.
pub(crate) fn passed(line: u16, asked: &Asked, used: Use) -> Judged<Argument>
    ensures exact { JudgedAnswers argument_of result (spec.passed line (asked_of asked.now) (used_of used.entry)) }
{
    match used {
        Use::Calls(called) => passed_procedure(line, asked, called),
        Use::Constructs(_) => fault(StaticKind::Call, line),
        Use::Halts => fault(StaticKind::Call, line),
        Use::Neither => fault(StaticKind::Call, line),
    }
}

fn passed_procedure(line: u16, asked: &Asked, called: Called) -> Judged<Argument>
    ensures exact { JudgedAnswers argument_of result (spec.passed line (asked_of asked.now) (spec.calls (called_of called.entry))) }
{
    must(called.has_shape(asked), StaticKind::Call, line)?;
    Ok(Argument::Formal(called.callee))
}
