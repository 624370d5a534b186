//! The number of words of the code of statements and blocks.

ghost use Rattle.std.specs.Prelude.{◌≡◌, ◌<◌, ◌^◌, length};
ghost use Rattle.edi_unit.specs.View.{act_of, acts_of, clause_of, clauses_of};
ghost use Rattle.edi_scheme.specs.Lengths.{block_length};
ghost use Rattle.edi_code.specs.InScope as long;
ghost use Rattle.edi_code.specs.Scope.{blocks_in, clause_kind_of, types_in};

use crate::lengths::{arguments_length, place_length, value_length};
use crate::pieces::{call_length, close_length};
use crate::scope::{Closing, Scope};
use edi_unit::{Act, Acts, BlockKind, Clause, Clauses};

// The words of a statement.
#[cycle(statement_lengths)]
pub(crate) fn act_length(act: &Act, scope: &Scope<'_>) -> u32
    requires small { long.act_length scope.now (act_of act.now) < 2 ^ 32 }
    ensures exact { result ≡ long.act_length scope.now (act_of act.now) }
{
    match act {
        Act::Skip => 0,
        Act::Assign(place, value) => place_length(place, scope) + value_length(value, scope) + 2,
        Act::Call(callee, arguments, _) => arguments_length(arguments, scope)
            + call_length(*callee),
        Act::Halt(_) => 2,
        Act::If(clauses) => clauses_length(clauses, scope, Closing::Once),
        Act::While(clauses) => clauses_length(clauses, scope, Closing::Repeated),
        Act::When(clauses, _) => 2 + clauses_length(clauses, scope, Closing::Released) + 3,
        Act::Cobegin(branches, _) => 3 + 3 * branches.len() as u32,
    }
}

// The words of statements.
#[cycle(statement_lengths)]
pub(crate) fn acts_length(acts: &Acts, scope: &Scope<'_>) -> u32
    requires small { long.acts_length scope.now (acts_of acts.now) < 2 ^ 32 }
    ensures exact { result ≡ long.acts_length scope.now (acts_of acts.now) }
{
    let mut words: u32 = 0;
    for act in acts.items() {
        words += act_length(act, scope);
    }
    words
}

// The words of a condition with its jump, and its list.
#[cycle(statement_lengths)]
pub(crate) fn clause_length(clause: &Clause, scope: &Scope<'_>) -> u32
    requires small { long.clause_length scope.now (clause_of clause.now) < 2 ^ 32 }
    ensures exact { result ≡ long.clause_length scope.now (clause_of clause.now) }
{
    value_length(&clause.condition, scope) + 3 + acts_length(&clause.body, scope)
}

// The words of clauses.
#[cycle(statement_lengths)]
pub(crate) fn clauses_length(clauses: &Clauses, scope: &Scope<'_>, closing: Closing) -> u32
    requires small { long.clauses_length scope.now (clause_kind_of closing) (clauses_of clauses.now) < 2 ^ 32 }
    ensures exact { result ≡ long.clauses_length scope.now (clause_kind_of closing) (clauses_of clauses.now) }
{
    let mut behind = clauses.len();
    let mut words: u32 = 0;
    for clause in clauses.items() {
        behind -= 1;
        words += clause_length(clause, scope) + close_length(closing, behind == 0);
    }
    words
}

/// The words of the code of the block of a scope, which is there.
pub fn block_words(scope: &Scope<'_>) -> u32
    requires known { scope.now.block < length (blocks_in scope.now) }
    requires small { block_length (types_in scope.now) (blocks_in scope.now) scope.now.block < 2 ^ 32 }
    ensures exact { result ≡ block_length (types_in scope.now) (blocks_in scope.now) scope.now.block }
{
    let block = &scope.blocks[scope.block as usize];
    let words = acts_length(&block.body, scope);
    match block.kind {
        BlockKind::Branch => words + 1,
        _ => 6 + words + 3,
    }
}
