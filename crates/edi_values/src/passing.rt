//! Arguments of calls, when they are judged.

ghost use Rattle.std.specs.Prelude.{◌≡◌, map};
ghost use Rattle.edi_unit.specs.Tree as unit;
ghost use Rattle.edi_tree.specs.View.{args_of};
ghost use Rattle.edi_static.specs.Prelude.{JudgedAnswers, argument_of, expression_of, formal_of, typed_of};
ghost use Rattle.edi_static.specs.Expressions as rule;
ghost use Rattle.edi_static.specs.Fitting as spec;
ghost use Rattle.edi_static.specs.Views as view;
ghost use Rattle.edi_values.specs.Parts as part;

use edi_static::{Formal, Judged, StaticKind, Typed, must};
use edi_tree::Args;
use edi_unit::{Argument, Value};

/// The number of arguments.
pub fn args_count(args: &Args) -> usize
    ensures exact { result ≡ rule.args_count (args_of args.now) }
{
    args.more.len() + 1
}

/// The parameters behind the first.
pub(crate) fn rest_of(formals: &[Formal]) -> &[Formal]
    ensures exact { view.formals (map formal_of result.now) ≡ spec.rest_of (view.formals (map formal_of formals.now)) }
{
    match formals.split_first() {
        Some((_, rest)) => rest,
        None => formals,
    }
}

fn by_value(value: Value) -> Argument
    ensures exact { argument_of result ≡ unit.by_value (expression_of value) }
{
    Argument::Value(value)
}

/// An argument for a value parameter is of its type.
pub(crate) fn value_argument(line: u16, of: u32, value: Typed) -> Judged<Argument>
    ensures exact { JudgedAnswers argument_of result (part.value_argument line of (typed_of value)) }
{
    must(value.of == of, StaticKind::Call, line)?;
    Ok(by_value(value.what))
}
