//! The task language: values, owners and worst cases.

ghost use Rattle.std.specs.Prelude.{◌≡◌, ◌∷◌, [], IfOk};

use sqlite_items::{Boxed, Items};
use std::alloc::{AllocError, Global};
use std::test::Fail;
use task_lang::allowed::allowed;
use task_lang::value::{apply, value};
use task_lang::worst::worst;
use task_lang::{Body, Expr, Op, OwnerKind, Stmt, Vars};
use tt_base::{Call, ModeNo, OsekNo, Series, VarNo};

pub(crate) const X: VarNo = VarNo(0);

#[test]
fn operators_wrap_around(rt: HostRuntime) {
    for (op, left, right, want) in [
        (Op::Add, i32::MAX, 1, i32::MIN),
        (Op::Sub, i32::MIN, 1, i32::MAX),
        (Op::Sub, 3, 5, -2),
        (Op::Mul, i32::MAX, 2, -2),
        (Op::Mul, i32::MIN, -1, i32::MIN),
        (Op::Mul, 65536, 65536, 0),
        (Op::Less, i32::MIN, i32::MAX, 1),
        (Op::Less, i32::MAX, i32::MAX, 0),
        (Op::AtMost, i32::MAX, i32::MAX, 1),
        (Op::AtMost, i32::MAX, i32::MIN, 0),
        (Op::Same, i32::MIN, i32::MIN, 1),
        (Op::Same, i32::MIN, i32::MAX, 0),
        (Op::Differ, i32::MIN, i32::MAX, 1),
        (Op::Differ, 0, 0, 0),
    ] {
        assert_eq!(rt; apply(op, left, right), want, "of {left} and {right}");
    }
}

#[test]
fn expressions_have_values(rt: HostRuntime) -> Result<(), Fail> {
    let alloc = rt.alloc();
    let mut vars = Vars::new(alloc);
    vars.push(-7)?;
    let ten = Boxed::new(alloc, Expr::Const(10))?;
    let difference = Expr::Bin(Op::Sub, Boxed::new(alloc, Expr::Var(X))?, ten);
    assert_eq!(rt; value(&difference, &vars), -17);
    Ok(())
}

/// Whether a task, an ISR, an OSEK task, an OSEK ISR and a hook may have the statement.
fn row(stmt: &Stmt) -> [bool; 5] {
    [
        allowed(stmt, OwnerKind::Task),
        allowed(stmt, OwnerKind::Isr),
        allowed(stmt, OwnerKind::Osek),
        allowed(stmt, OwnerKind::Oisr),
        allowed(stmt, OwnerKind::Hook),
    ]
}

#[test]
fn owners_have_their_services(rt: HostRuntime) {
    let osektime = [true, true, false, false, false];
    let task = [false, false, true, false, false];
    for (call, want) in [
        (Call::Switch(ModeNo(0)), osektime),
        (Call::Sync, osektime),
        (Call::Shutdown, osektime),
        (Call::Activate(OsekNo(0)), [false, false, true, true, false]),
        (Call::Chain(OsekNo(0)), task),
        (Call::Terminate, task),
    ] {
        assert_eq!(rt; row(&Stmt::Service(call)), want);
    }
    assert_eq!(rt; row(&Stmt::Work(1)), [true, true, true, true, false]);
    assert_eq!(rt; row(&Stmt::Out(Expr::Const(1))), [true; 5]);
}

pub(crate) fn only(alloc: Global, stmt: Stmt) -> Result<Body, AllocError>
    ensures { IfOk result (λ body. body ≡ stmt ∷ []) }
{
    let mut body = Items::new(alloc);
    body.push(stmt)?;
    Ok(body)
}

#[tactic(auto, using(task_lang::specs::Opening::folds))]
#[test]
fn branches_and_repetitions_have_a_worst_case(rt: HostRuntime) -> Result<(), Fail> {
    let demands = Series::new(rt.alloc());
    let first = only(rt.alloc(), Stmt::Work(2))?;
    let second = only(rt.alloc(), Stmt::Work(10_000_000))?;
    let branches = only(rt.alloc(), Stmt::If(Expr::Var(X), first, second))?;
    let body = only(rt.alloc(), Stmt::Repeat(65535, branches))?;
    assert_eq!(rt; worst(&body, &demands), 65535 * 10_000_002);
    Ok(())
}
