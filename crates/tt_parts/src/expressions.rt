//! Expressions by their words in prefix form.

ghost use Rattle.std.specs.Prelude.{◌≡◌, [], ◌∷◌, IfOk, OnOk};
ghost use Rattle.tt_parts.specs.Bodies.{expression_of, operator_then, term_then};

use crate::front_list::FrontList;
use crate::naming::number_named;
use sqlite_items::Boxed;
use std::alloc::Global;
use task_lang::{Expr, Op};
use tt_base::{Memory, Names, VarNo};
use tt_rows::Term;

/// Terms as an expression, in time that is linear in the terms times a look-up. A term alone, as
/// most expressions are, takes no memory.
pub(crate) fn expression_of(alloc: Global, names: &Names, terms: &[Term]) -> Result<Expr, Memory>
    ensures { IfOk result (λ expr. expr ≡ expression_of names.now terms.now) }
{
    match terms {
        [term] => Ok(expression_of_one(names, *term)),
        _ => expression_of_many(alloc, names, terms),
    }
}

/// A term as an expression. An operator without expressions after it counts as 0.
fn expression_of_one(names: &Names, term: Term) -> Expr
    ensures { result ≡ expression_of names.now (term ∷ []) }
{
    match term {
        Term::Int(value) => Expr::Const(value),
        Term::Name(name) => Expr::Var(VarNo(number_named(names, name))),
        Term::Op(_) => Expr::Const(0),
    }
}

/// Terms as an expression. They are read from the last to the first, so that an operator finds its
/// two expressions after it.
fn expression_of_many(alloc: Global, names: &Names, terms: &[Term]) -> Result<Expr, Memory>
    ensures { IfOk result (λ expr. expr ≡ expression_of names.now terms.now) }
{
    let mut rest = FrontList::new(alloc);
    let mut left = terms;
    while let Some((term, before)) = left.split_last() {
        put_term(alloc, names, *term, &mut rest)?;
        left = before;
    }
    Ok(rest.pop_front().unwrap_or(Expr::Const(0)))
}

/// Reads a term that comes before some expressions.
fn put_term(
    alloc: Global,
    names: &Names,
    term: Term,
    rest: &mut FrontList<Expr>,
) -> Result<(), Memory>
    ensures { OnOk result (rest.new ≡ term_then names.now term rest.old) }
{
    match term {
        Term::Int(value) => rest.push_front(Expr::Const(value)),
        Term::Name(name) => rest.push_front(Expr::Var(VarNo(number_named(names, name)))),
        Term::Op(op) => put_operator(alloc, op, rest),
    }
}

/// Reads an operator: it takes the first two of the expressions after it.
fn put_operator(alloc: Global, op: Op, rest: &mut FrontList<Expr>) -> Result<(), Memory>
    ensures { OnOk result (rest.new ≡ operator_then op rest.old) }
{
    let Some(left) = rest.pop_front() else {
        return Ok(());
    };
    let Some(right) = rest.pop_front() else {
        return Ok(());
    };
    let left = boxed(alloc, left)?;
    let right = boxed(alloc, right)?;
    rest.push_front(Expr::Bin(op, left, right))
}

fn boxed(alloc: Global, expr: Expr) -> Result<Boxed<Expr>, Memory>
    ensures { IfOk result (λ boxed. boxed ≡ expr) }
{
    match Boxed::new(alloc, expr) {
        Ok(boxed) => Ok(boxed),
        Err(_) => Err(Memory),
    }
}
