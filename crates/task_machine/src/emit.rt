//! Compiling a body to its instructions.

ghost use Rattle.std.specs.Prelude.{◌≡◌, ◌≤◌, ◌+◌, ◌++◌, ◌∷◌, [], IsTrue, IfOk, OnOk};
ghost use Rattle.task_lang.specs.Limits.{IsNestedInLimit, AreNumbersInRange, nesting_of, nesting_in, each_of, is_number_in_range};
ghost use Rattle.task_machine.specs.Layout.{expr_code, if_code, repeat_code, stmt_code, body_code};

use crate::codes::Code;
use crate::instr::{Instr, Term};
use std::alloc::{AllocError, Global};
use task_lang::{Body, Expr, Stmt};
use tt_base::Memory;

/// More instructions than any memory holds.
const TOO_MANY: usize = 0x1_0000_0000_0000;

/// The code of a body. The time is linear in the number of statements. It calls itself once for
/// each term of an expression; the rules allow 100 terms.
pub fn compile(alloc: Global, body: &Body) -> Result<Code, Memory>
    requires nested { IsNestedInLimit body.now }
    requires numbers { AreNumbersInRange body.now }
    ensures { IfOk result (λ code. code ≡ body.now) }
{
    let instrs = body_instrs(alloc, body.as_slice(), 0)?;
    if instrs.len() >= TOO_MANY {
        return Err(Memory);
    }
    Ok(Code { instrs })
}

/// The instructions of a body that is inside this number of repetitions.
#[cycle(emitting)]
fn body_instrs(alloc: Global, body: &[Stmt], depth: u8) -> Result<Vec<Instr>, AllocError>
    requires nested { depth + nesting_in body.now ≤ 4 }
    requires numbers { AreNumbersInRange body.now }
    ensures { IfOk result (λ code. code.items ≡ body_code depth body.now) }
{
    let mut code = Vec::new(alloc);
    for stmt in body {
        emit_stmt(alloc, &mut code, stmt, depth)?;
    }
    Ok(code)
}

#[cycle(emitting)]
fn emit_stmt(alloc: Global, code: &mut Vec<Instr>, stmt: &Stmt, depth: u8) -> Result<(), AllocError>
    requires nested { depth + nesting_of stmt.now ≤ 4 }
    requires numbers { IsTrue (each_of is_number_in_range stmt.now) }
    ensures { OnOk result (code.new.items ≡ code.old.items ++ stmt_code stmt.now depth) }
{
    match stmt {
        Stmt::Work(ticks) => put(code, Instr::Work(*ticks)),
        Stmt::Take(demand) => put(code, Instr::Take(*demand)),
        Stmt::Set(var, expr) => put_with(code, Instr::Set(*var), expr),
        Stmt::If(expr, first, second) => {
            let first = body_instrs(alloc, first.as_slice(), depth)?;
            let second = body_instrs(alloc, second.as_slice(), depth)?;
            emit_if(code, expr, &first, &second)
        }
        Stmt::Repeat(turns, inner) => {
            let inner = body_instrs(alloc, inner.as_slice(), depth + 1)?;
            emit_repeat(code, depth, *turns as u16, &inner)
        }
        Stmt::Out(expr) => put_with(code, Instr::Out, expr),
        Stmt::Service(call) => put(code, Instr::Service(*call)),
    }
}

fn emit_if(
    code: &mut Vec<Instr>,
    test: &Expr,
    first: &[Instr],
    second: &[Instr],
) -> Result<(), AllocError>
    ensures { OnOk result (code.new.items
        ≡ code.old.items ++ if_code (expr_code test.now) first.now second.now) }
{
    put(code, Instr::If(first.len() + 1))?;
    emit_expr(code, test)?;
    extend(code, first)?;
    put(code, Instr::Skip(second.len()))?;
    extend(code, second)
}

fn emit_repeat(
    code: &mut Vec<Instr>,
    counter: u8,
    turns: u16,
    inner: &[Instr],
) -> Result<(), AllocError>
    ensures { OnOk result (code.new.items
        ≡ code.old.items ++ repeat_code counter turns inner.now) }
{
    put(code, Instr::Repeat(counter, turns))?;
    extend(code, inner)?;
    put(code, Instr::Again(counter, inner.len()))
}

/// An instruction, and the terms of its expression after it.
fn put_with(code: &mut Vec<Instr>, instr: Instr, expr: &Expr) -> Result<(), AllocError>
    ensures { OnOk result (code.new.items ≡ code.old.items ++ instr ∷ expr_code expr.now) }
{
    put(code, instr)?;
    emit_expr(code, expr)
}

fn emit_expr(code: &mut Vec<Instr>, expr: &Expr) -> Result<(), AllocError>
    ensures { OnOk result (code.new.items ≡ code.old.items ++ expr_code expr.now) }
{
    match expr {
        Expr::Const(number) => put(code, Instr::Term(Term::Const(*number))),
        Expr::Var(var) => put(code, Instr::Term(Term::Var(*var))),
        Expr::Bin(op, left, right) => {
            put(code, Instr::Term(Term::Apply(*op)))?;
            emit_expr(code, left.get())?;
            emit_expr(code, right.get())
        }
    }
}

fn put(code: &mut Vec<Instr>, instr: Instr) -> Result<(), AllocError>
    ensures { OnOk result (code.new.items ≡ code.old.items ++ instr ∷ []) }
{
    code.push(instr)?;
    Ok(())
}

fn extend(code: &mut Vec<Instr>, more: &[Instr]) -> Result<(), AllocError>
    ensures { OnOk result (code.new.items ≡ code.old.items ++ more.now) }
{
    code.extend_from_slice(more)
}
