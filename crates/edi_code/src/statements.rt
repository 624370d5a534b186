//! The code of statements.
#![tactic(auto, using(crate::proofs::Emitting::words_append))]

ghost use Rattle.std.specs.Prelude.{◌≡◌, ◌+◌, ◌<◌, ◌^◌, All, IfOk, OnOk, length};
ghost use Rattle.edi_unit.specs.Lists.{list_items};
ghost use Rattle.edi_unit.specs.View.{act_of, acts_of, clause_of, clauses_of, expression_of, place_of};
ghost use Rattle.edi_unit.specs.Tree.{Clauses, assign, when_act, cobegin};
ghost use Rattle.edi_unit.specs.Tree.{clause as plain_clause};
ghost use Rattle.edi_scheme.specs.Pieces.{close_code};
ghost use Rattle.edi_code.specs.Aimed.{Opens, target_of};
ghost use Rattle.edi_code.specs.Emits.{Emits};
ghost use Rattle.edi_code.specs.InScope as in_scope;
ghost use Rattle.edi_code.specs.InScope.{ActIsWritable, ActsAreWritable, ClauseIsWritable, ClausesAreWritable};
ghost use Rattle.edi_code.specs.Scope.{IsScope, MayBeWritten, blocks_in, clause_kind_of, is_end};

use crate::expressions::emit_value;
use crate::expressions::places::{emit_call, emit_place};
use crate::instructions::{again, entry_of, put, put_at};
use crate::jumps::{aim, aim_all, open_jump, target_of};
use crate::pieces::close_length;
use crate::quiet::is_quiet;
use crate::scope::{Appended, Behind, Closing, Scope};
use edi_target::Op;
use edi_unit::{Act, Acts, Clause, Clauses, Numbers, Place, Value, place_type, type_words};
use std::alloc::{AllocError, Global};

// The code of a statement, which stands at `at`.
#[cycle(statements)]
fn emit_act(act: &Act, scope: &Scope<'_>, at: u32, out: &mut Vec<u16>) -> Behind
    requires may { MayBeWritten scope.now at (in_scope.act_length scope.now (act_of act.now)) (ActIsWritable scope.now (act_of act.now)) }
    ensures emits { OnOk result (Emits out.old.items out.new.items (in_scope.act_code scope.now at (act_of act.now))) }
    ensures behind { IfOk result (λ behind. behind ≡ at + in_scope.act_length scope.now (act_of act.now)) }
{
    match act {
        Act::Skip => Ok(at),
        Act::Assign(place, value) => emit_assign(place, value, scope, at, out),
        Act::Call(callee, arguments, line) => {
            emit_call(arguments, scope, at, *callee, *line, out)
        }
        Act::Halt(line) => put_at(scope.alloc, &Op::Halt { line: *line }, at, 2, out),
        Act::If(clauses) => emit_clauses(clauses, scope, at, Closing::Once, out),
        Act::While(clauses) => emit_clauses(clauses, scope, at, Closing::Repeated, out),
        Act::When(clauses, line) => emit_when(clauses, scope, at, *line, out),
        Act::Cobegin(branches, line) => {
            emit_cobegin(branches, scope, *line, out)?;
            Ok(at + 3 + 3 * branches.len() as u32)
        }
    }
}

// The code of an assignment.
fn emit_assign(
    place: &Place,
    value: &Value,
    scope: &Scope<'_>,
    at: u32,
    out: &mut Vec<u16>,
) -> Behind
    requires may { MayBeWritten scope.now at (in_scope.act_length scope.now (assign (place_of place.now) (expression_of value.now)))
        (ActIsWritable scope.now (assign (place_of place.now) (expression_of value.now))) }
    ensures emits { OnOk result (Emits out.old.items out.new.items (in_scope.act_code scope.now at (assign (place_of place.now) (expression_of value.now)))) }
    ensures behind { IfOk result (λ behind. behind ≡ at + in_scope.act_length scope.now (assign (place_of place.now) (expression_of value.now))) }
{
    let of = place_type(scope.types, scope.blocks, scope.block, place);
    let count = type_words(scope.types, of) as u16;
    let middle = emit_place(place, scope, at, out)?;
    let behind = emit_value(value, scope, middle, out)?;
    put(scope.alloc, &Op::Store { count }, out)?;
    Ok(behind + 2)
}

// The code of a `when`.
#[cycle(statements)]
fn emit_when(clauses: &Clauses, scope: &Scope<'_>, at: u32, line: u16, out: &mut Vec<u16>) -> Behind
    requires may { MayBeWritten scope.now at (in_scope.act_length scope.now (when_act (clauses_of clauses.now) line))
        (ClausesAreWritable scope.now (clauses_of clauses.now)) }
    ensures emits { OnOk result (Emits out.old.items out.new.items (in_scope.act_code scope.now at (when_act (clauses_of clauses.now) line))) }
    ensures behind { IfOk result (λ behind. behind ≡ at + in_scope.act_length scope.now (when_act (clauses_of clauses.now) line)) }
{
    let top = at + 2;
    put(scope.alloc, &Op::When { line }, out)?;
    let behind = emit_clauses(clauses, scope, top, Closing::Released, out)?;
    put(scope.alloc, &again(is_quiet(clauses), top), out)?;
    Ok(behind + 3)
}

// The words of the branches of a `cobegin`: of each its need, and the address where it begins.
fn branch_words(branches: &Numbers, scope: &Scope<'_>) -> Result<Vec<u16>, AllocError>
    requires scope { IsScope scope.now }
    requires there { All (λ n. n < length (blocks_in scope.now)) (list_items branches.now) }
    ensures exact { IfOk result (λ words. words.items ≡ in_scope.branch_words_in scope.now (list_items branches.now)) }
{
    let mut words: Vec<u16> = Vec::new(scope.alloc);
    for branch in branches.items() {
        let begins = entry_of(scope, *branch);
        let need = scope.blocks[*branch as usize].need as u16;
        words.extend_from_slice(&[need, (begins / 65_536) as u16, (begins % 65_536) as u16])?;
    }
    Ok(words)
}

// The code of a `cobegin`.
fn emit_cobegin(branches: &Numbers, scope: &Scope<'_>, line: u16, out: &mut Vec<u16>) -> Appended
    requires scope { IsScope scope.now }
    requires writable { ActIsWritable scope.now (cobegin (list_items branches.now) line) }
    ensures emits { OnOk result (Emits out.old.items out.new.items (in_scope.act_code scope.now 0 (cobegin (list_items branches.now) line))) }
{
    let words = branch_words(branches, scope)?;
    put(
        scope.alloc,
        &Op::Cobegin {
            line,
            branches: &words,
        },
        out,
    )
}

/// Appends the code of statements, the first of which stands at `at`. The only error is want of memory.
#[cycle(statements)]
pub fn emit_acts(acts: &Acts, scope: &Scope<'_>, at: u32, out: &mut Vec<u16>) -> Behind
    requires may { MayBeWritten scope.now at (in_scope.acts_length scope.now (acts_of acts.now)) (ActsAreWritable scope.now (acts_of acts.now)) }
    ensures emits { OnOk result (Emits out.old.items out.new.items (in_scope.acts_code scope.now at (acts_of acts.now))) }
    ensures behind { IfOk result (λ behind. behind ≡ at + in_scope.acts_length scope.now (acts_of acts.now)) }
{
    let mut here = at;
    for act in acts.items() {
        here = emit_act(act, scope, here, out)?;
    }
    Ok(here)
}

// The code of a clause; where its condition is false the program goes on behind the words, `more` of them, that close its list.
#[cycle(statements)]
fn emit_clause(clause: &Clause, scope: &Scope<'_>, at: u32, more: u32, out: &mut Vec<u16>) -> Behind
    requires may { MayBeWritten scope.now at (in_scope.clause_length scope.now (clause_of clause.now)) (ClauseIsWritable scope.now (clause_of clause.now)) }
    ensures emits { OnOk result (at + in_scope.clause_length scope.now (clause_of clause.now) + more < 2 ^ 32 → Emits out.old.items out.new.items
        (in_scope.clause_code scope.now at (at + in_scope.clause_length scope.now (clause_of clause.now) + more) (clause_of clause.now))) }
    ensures behind { IfOk result (λ behind. behind ≡ at + in_scope.clause_length scope.now (clause_of clause.now)) }
{
    emit_guarded(&clause.body, &clause.condition, scope, at, more, out)
}

// The code of a condition and the list behind it.
#[cycle(statements)]
fn emit_guarded(
    body: &Acts,
    condition: &Value,
    scope: &Scope<'_>,
    at: u32,
    more: u32,
    out: &mut Vec<u16>,
) -> Behind
    requires may { MayBeWritten scope.now at (in_scope.clause_length scope.now (plain_clause (expression_of condition.now) (acts_of body.now)))
        (ClauseIsWritable scope.now (plain_clause (expression_of condition.now) (acts_of body.now))) }
    ensures emits { OnOk result (at + in_scope.clause_length scope.now (plain_clause (expression_of condition.now) (acts_of body.now)) + more < 2 ^ 32
        → Emits out.old.items out.new.items (in_scope.clause_code scope.now at
        (at + in_scope.clause_length scope.now (plain_clause (expression_of condition.now) (acts_of body.now)) + more)
        (plain_clause (expression_of condition.now) (acts_of body.now)))) }
    ensures behind { IfOk result (λ behind. behind ≡ at + in_scope.clause_length scope.now (plain_clause (expression_of condition.now) (acts_of body.now))) }
{
    let list = emit_value(condition, scope, at, out)?;
    let jump = out.len();
    put(scope.alloc, &Op::False { target: 0 }, out)?;
    let behind = emit_acts(body, scope, list + 3, out)?;
    aim(out, jump, behind.saturating_add(more));
    Ok(behind)
}

// What closes the list of a clause of a statement whose clauses begin at `top`; `last` tells whether no clause follows. The target of
// a jump behind the statement is left open, and its start put behind the others.
fn emit_close(
    alloc: Global,
    closing: Closing,
    top: u32,
    last: bool,
    starts: &mut Vec<usize>,
    out: &mut Vec<u16>,
) -> Appended
    ensures closes { OnOk result ((clauses : Clauses) → last ≡ is_end clauses →
        Opens (clause_kind_of closing) top starts.old.items starts.new.items out.old.items out.new.items (λ target. close_code (clause_kind_of closing) target clauses)) }
{
    match closing {
        Closing::Once => {
            if last {
                return Ok(());
            }
            open_jump(alloc, starts, out)
        }
        Closing::Repeated => put(alloc, &Op::Loop { target: top }, out),
        Closing::Released => {
            put(alloc, &Op::Done, out)?;
            open_jump(alloc, starts, out)
        }
    }
}

// The code of clauses, from `at` on; the targets of jumps behind the statement are left open; they start at `starts`.
#[cycle(statements)]
fn emit_open_clauses(
    clauses: &Clauses,
    scope: &Scope<'_>,
    at: u32,
    closing: Closing,
    starts: &mut Vec<usize>,
    out: &mut Vec<u16>,
) -> Behind
    requires may { MayBeWritten scope.now at (in_scope.clauses_length scope.now (clause_kind_of closing) (clauses_of clauses.now))
        (ClausesAreWritable scope.now (clauses_of clauses.now)) }
    ensures opens { OnOk result (Opens (clause_kind_of closing) at starts.old.items starts.new.items out.old.items out.new.items
        (λ target. in_scope.clauses_code scope.now (clause_kind_of closing) target at (clauses_of clauses.now))) }
    ensures behind { IfOk result (λ behind. behind ≡ at + in_scope.clauses_length scope.now (clause_kind_of closing) (clauses_of clauses.now)) }
{
    let mut behind = clauses.len();
    let mut here = at;
    for clause in clauses.items() {
        behind -= 1;
        let more = close_length(closing, behind == 0);
        let ends = emit_clause(clause, scope, here, more, out)?;
        emit_close(scope.alloc, closing, at, behind == 0, starts, out)?;
        here = ends + more;
    }
    Ok(here)
}

// The code of clauses, from `at` on, whose lists close as those of their statement do.
#[cycle(statements)]
fn emit_clauses(
    clauses: &Clauses,
    scope: &Scope<'_>,
    at: u32,
    closing: Closing,
    out: &mut Vec<u16>,
) -> Behind
    requires may { MayBeWritten scope.now at (in_scope.clauses_length scope.now (clause_kind_of closing) (clauses_of clauses.now))
        (ClausesAreWritable scope.now (clauses_of clauses.now)) }
    requires room { target_of (clause_kind_of closing) at (in_scope.clauses_length scope.now (clause_kind_of closing) (clauses_of clauses.now)) < 2 ^ 32 }
    ensures emits { OnOk result (Emits out.old.items out.new.items (in_scope.clauses_code scope.now (clause_kind_of closing)
        (target_of (clause_kind_of closing) at (in_scope.clauses_length scope.now (clause_kind_of closing) (clauses_of clauses.now)))
        at (clauses_of clauses.now))) }
    ensures behind { IfOk result (λ behind. behind ≡ at + in_scope.clauses_length scope.now (clause_kind_of closing) (clauses_of clauses.now)) }
{
    let mut starts: Vec<usize> = Vec::new(scope.alloc);
    let behind = emit_open_clauses(clauses, scope, at, closing, &mut starts, out)?;
    aim_all(out, &starts, target_of(closing, at, behind));
    Ok(behind)
}
