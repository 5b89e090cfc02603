//! Worked bodies as flat code, tick by tick.

ghost use Rattle.std.specs.Prelude.{◌≡◌, ◌<◌, ◌≤◌, [], ◌∷◌, IfOk};
ghost use Rattle.task_lang.specs.Limits.{IsNestedInLimit, AreNumbersInRange};
ghost use Rattle.task_machine.specs.Standing.{IsSound};

use crate::task_language::{X, only};
use sqlite_items::{Boxed, Items};
use std::alloc::{AllocError, Global};
use std::marker::Brand;
use std::process::Abort;
use std::test::Fail;
use task_lang::{Body, Demand, Effect, Expr, Op, Stmt, Vars};
use task_machine::{Codes, Env, Frame, Progress, advance, compile};
use tt_base::{Blank, DemandNo, Ledger, Series, Steps};

const D: DemandNo = DemandNo(0);

fn pair(alloc: Global, op: Op, left: Expr, right: Expr) -> Result<Expr, AllocError> {
    Ok(Expr::Bin(op, Boxed::new(alloc, left)?, Boxed::new(alloc, right)?))
}

/// One variable of value 5, and a demand of no ticks.
fn small_env(alloc: Global) -> Result<Env, Fail> {
    let mut vars = Vars::new(alloc);
    vars.push(-8)?;
    let mut demands = Series::new(alloc);
    demands.push(Demand { most: 0, usual: 0 })?;
    let mut values = Series::new(alloc);
    values.push(Series::new(alloc))?;
    let mut env = Env::new(alloc, &vars, &demands, &values)?;
    env.set_var(X, 5);
    Ok(env)
}

/// `repeat 2 / set x - x 3 / end / if < x 0 / out - - x 2147483647 1 / else / out 1 / end / take d`
#[tactic(auto, using(task_lang::specs::Opening::folds))]
fn mixed_body(alloc: Global) -> Result<Body, AllocError>
    ensures nested { IfOk result IsNestedInLimit }
    ensures numbers { IfOk result AreNumbersInRange }
{
    let less = pair(alloc, Op::Sub, Expr::Var(X), Expr::Const(3))?;
    let negative = pair(alloc, Op::Less, Expr::Var(X), Expr::Const(0))?;
    let far = pair(alloc, Op::Sub, Expr::Var(X), Expr::Const(2147483647))?;
    let past = pair(alloc, Op::Sub, far, Expr::Const(1))?;
    let turn = only(alloc, Stmt::Set(X, less))?;
    let first = only(alloc, Stmt::Out(past))?;
    let second = only(alloc, Stmt::Out(Expr::Const(1)))?;
    let mut body = Items::new(alloc);
    body.push(Stmt::Repeat(2, turn))?;
    body.push(Stmt::If(negative, first, second))?;
    body.push(Stmt::Take(D))?;
    Ok(body)
}

/// The one code of a body.
fn codes_of(alloc: Global, body: &Body) -> Result<Codes, Fail>
    requires nested { IsNestedInLimit body.now }
    requires numbers { AreNumbersInRange body.now }
    ensures { IfOk result (λ codes. codes ≡ body.now ∷ []) }
{
    let mut codes = Codes::new(alloc);
    codes.push(compile(alloc, body)?)?;
    Ok(codes)
}

/// The value that a tick outputs.
fn output_of(progress: Progress) -> Option<i32> {
    match progress.effect {
        Some(Effect::Out(value)) => Some(value),
        _ => None,
    }
}

/// A frame takes seven ticks, and outputs a value in the sixth.
fn check_ticks<L: Ledger>(
    rt: &impl Abort,
    frame: &mut Frame,
    codes: &Codes,
    env: &mut Env,
    steps: &mut Steps<L>,
)
    requires { IsSound codes.now frame.old }
{
    for tick in 0..7 {
        assert!(rt; !frame.ended());
        let progress = advance(frame, codes, 1, env, steps);
        let out = if tick == 5 { Some(2147483647) } else { None };
        assert_eq!(rt; output_of(progress), out, "at {tick}");
    }
    assert!(rt; frame.ended());
}

fn check_mixed<L: Ledger>(
    rt: &impl Abort,
    alloc: Global,
    steps: &mut Steps<L>,
) -> Result<(), Fail> {
    let mut env = small_env(alloc)?;
    let codes = codes_of(alloc, &mixed_body(alloc)?)?;
    let mut frame = Frame::start(&codes, 0);
    check_ticks(rt, &mut frame, &codes, &mut env, steps);
    assert_eq!(rt; env.vars().as_slice(), [-1].as_slice());
    Ok(())
}

/// `first` ticks of a work of a million are one call.
#[tactic(auto, using(task_lang::specs::Opening::folds))]
fn check_work<L: Ledger>(
    rt: &impl Abort,
    alloc: Global,
    steps: &mut Steps<L>,
    first: u64,
) -> Result<(), Fail>
    requires some { 1 ≤ first }
    requires within { first ≤ 1000000 }
{
    let mut env = small_env(alloc)?;
    let body = only(alloc, Stmt::Work(1000000))?;
    let codes = codes_of(alloc, &body)?;
    assert_eq!(rt; codes.len(), 1);
    let mut frame = Frame::start(&codes, codes.number_after(0, 0));
    assert_eq!(rt; frame.program(), 0);
    assert_eq!(rt; frame.work_left(), 1000000);
    assert!(rt; !frame.ended());
    let progress = advance(&mut frame, &codes, first, &mut env, steps);
    assert!(rt; progress.effect.is_none());
    assert_eq!(rt; progress.ended, first == 1000000);
    assert_eq!(rt; frame.work_left(), 1000000 - first);
    Ok(())
}

fn check_bodies<L: Ledger>(rt: &impl Abort, alloc: Global, blank: Blank) -> Result<(), Fail>
    requires name { blank.name ≡ L.name }
    requires parts { blank.parts ≡ L.parts }
    requires whole { 0 < blank.parts }
{
    let mut steps = Steps::<L>::new(blank);
    check_mixed(rt, alloc, &mut steps)?;
    check_work(rt, alloc, &mut steps, 1)?;
    check_work(rt, alloc, &mut steps, 999999)?;
    check_work(rt, alloc, &mut steps, 1000000)
}

#[test]
fn bodies_take_their_ticks(rt: HostRuntime) -> Result<(), Fail> {
    check_bodies::<Brand>(&rt, rt.alloc(), Blank::new(1))
}
