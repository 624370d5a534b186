//! Variables and their parts, as places and as values.

ghost use Rattle.std.specs.Prelude.{◌≡◌};
ghost use Rattle.edi_unit.specs.View.{parts_of};
ghost use Rattle.edi_static.specs.Prelude.{JudgedAnswers, environment, rooted_of, typed_of};
ghost use Rattle.edi_static.specs.Expressions as rule;
ghost use Rattle.edi_static.specs.Fitting as spec;
ghost use Rattle.edi_values.specs.Views.{located_of, reached_of};

use edi_static::{Judged, Known, Rooted, Typed, as_function, as_variable};
use edi_tree::Root;
use edi_unit::{List, Parts, Place, Value};
use std::alloc::Global;

/// The steps to a part of a variable, with its type.
#[derive(Drop)]
pub(crate) struct Reached {
    pub(crate) parts: Parts,
    pub(crate) of: u32,
}

/// A variable or a part of it, with its type.
#[derive(Drop)]
pub struct Located {
    pub place: Place,
    pub of: u32,
}

/// The variable that a name or `val f` means.
pub(crate) fn rooted(known: &Known, root: &Root) -> Judged<Rooted>
    ensures exact { JudgedAnswers rooted_of result (rule.rooted (environment known.now) root.now) }
{
    match root {
        Root::Name(name) => as_variable(known, name.line, known.look_up(name)?),
        Root::Val(name) => as_function(known, name.line, known.look_up(name)?),
    }
}

/// The part of a variable to which these steps lead.
pub(crate) fn part_at(root: Rooted, steps: Reached) -> Located
    ensures exact { located_of result ≡ rule.located (rooted_of root) (reached_of steps) }
{
    let place = Place {
        levels: root.levels,
        variable: root.variable,
        parts: steps.parts,
    };
    Located {
        place,
        of: steps.of,
    }
}

/// The value of a variable or a part of it.
pub(crate) fn loaded(located: Located) -> Typed
    ensures exact { typed_of result ≡ rule.loaded (located_of located) }
{
    Typed {
        what: Value::Load(located.place),
        of: located.of,
    }
}

/// The value of a variable.
pub(crate) fn rooted_value(alloc: Global, rooted: Rooted) -> Typed
    ensures exact { typed_of result ≡ spec.rooted_value (rooted_of rooted) }
{
    let parts = List::new(alloc);
    let steps = Reached {
        parts,
        of: rooted.of,
    };
    loaded(part_at(rooted, steps))
}
