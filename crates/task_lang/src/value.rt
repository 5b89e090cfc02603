//! The value of an expression.

ghost use Rattle.std.specs.Prelude.{◌≡◌, ◌≤◌};
ghost use Rattle.task_lang.specs.Limits.{terms_of};
ghost use Rattle.task_lang.specs.Value.{value_of, result_of};

use crate::syntax::{Expr, Op};
use crate::vars::Vars;

/// The value of an expression of at most 100 terms. A variable that `vars` does not have counts as
/// 0. It calls itself once for each term, so that the bound on terms bounds the native stack too.
pub fn value(expr: &Expr, vars: &Vars) -> i32
    requires { terms_of expr.now ≤ 100 }
    ensures { result ≡ value_of vars.now expr.now }
{
    match expr {
        Expr::Const(number) => *number,
        Expr::Var(var) => vars.as_slice().get(var.0 as usize).copied().unwrap_or(0),
        Expr::Bin(op, left, right) => apply(*op, value(left.get(), vars), value(right.get(), vars)),
    }
}

/// The result of an operator on two values.
pub fn apply(op: Op, left: i32, right: i32) -> i32
    ensures { result ≡ result_of op left right }
{
    match op {
        Op::Add => left.wrapping_add(right),
        Op::Sub => left.wrapping_sub(right),
        Op::Mul => left.wrapping_mul(right),
        Op::Less => i32::from(left < right),
        Op::AtMost => i32::from(left <= right),
        Op::Same => i32::from(left == right),
        Op::Differ => i32::from(left != right),
    }
}
