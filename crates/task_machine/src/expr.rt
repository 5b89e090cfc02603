//! Expressions in prefix form.

ghost use Rattle.std.specs.Prelude.{◌≡◌, ◌≤◌, ◌<◌, ◌∷◌, ℕ, [], length, slice_get, slice_index_or, pos, OnSome};
ghost use Rattle.task_lang.specs.declared.syntax.Expr.{Expr};
ghost use Rattle.task_lang.specs.Value.{value_of};
ghost use Rattle.task_machine.specs.Layout.{Stands, expr_code, term_in};

use crate::instr::{Instr, Term};
use task_lang::Vars;
use task_lang::value::apply;
use tt_base::VarNo;

/// The value of the expression at a place, and the place after it. A variable that does not exist
/// counts as 0. It takes no memory, and calls itself once for each term.
pub(crate) fn evaluate(code: &[Instr], place: usize, vars: &Vars) -> (i32, usize)
    ensures value { (expr : Expr) (q : ℕ) → Stands code.now place (expr_code expr) q
        → (result.0 ≡ value_of vars.now expr) × (result.1 ≡ q) }
    ensures onward { place ≤ result.1 }
    ensures within { place ≤ length code.now → result.1 ≤ length code.now }
{
    match term_at(code, place) {
        None => (0, place),
        Some(Term::Const(number)) => (number, place + 1),
        Some(Term::Var(var)) => (read(vars, var), place + 1),
        Some(Term::Apply(op)) => {
            let (left, middle) = evaluate(code, place + 1, vars);
            let (right, after) = evaluate(code, middle, vars);
            (apply(op, left, right), after)
        }
    }
}

fn term_at(code: &[Instr], place: usize) -> Option<Term>
    ensures term { result ≡ term_in (slice_get code.now place) }
    ensures within { OnSome result (place < length code.now) }
{
    match code.get(place) {
        None => None,
        Some(instr) => term_of(*instr),
    }
}

fn term_of(instr: Instr) -> Option<Term>
    ensures { result ≡ term_in (Some instr) }
{
    match instr {
        Instr::Term(term) => Some(term),
        _ => None,
    }
}

fn read(vars: &Vars, var: VarNo) -> i32
    ensures { result ≡ slice_index_or vars.now var.0 (pos 0) }
{
    vars.as_slice().get(var.0 as usize).copied().unwrap_or(0)
}
