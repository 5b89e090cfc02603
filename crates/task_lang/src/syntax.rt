//! Statements and expressions. The language is the bench's own.

use sqlite_items::{Boxed, Items};
use tt_base::{Call, DemandNo, VarNo};

/// An operator of two values. Sums, differences and products are taken modulo 2^32; a comparison
/// gives 1 or 0.
#[derive(Clone, Copy)]
pub enum Op {
    /// `+`: the sum.
    Add,
    /// `-`: the first minus the second.
    Sub,
    /// `*`: the product.
    Mul,
    /// `<`: whether the first is below the second.
    Less,
    /// `<=`: whether the first is at most the second.
    AtMost,
    /// `==`: whether both are the same.
    Same,
    /// `!=`: whether they differ.
    Differ,
}

/// An expression. Its value is a signed number of 32 bits.
#[derive(Drop)]
pub enum Expr {
    /// A number.
    Const(i32),
    /// The value that a variable has.
    Var(VarNo),
    /// An operator of two expressions.
    Bin(Op, Boxed<Expr>, Boxed<Expr>),
}

/// A statement. Contracts see inner bodies as lists of statements.
#[derive(Drop)]
pub enum Stmt {
    /// `work`: ticks of computing.
    Work(u64),
    /// `take`: one tick, then as many ticks of computing as the script gives for the demand.
    Take(DemandNo),
    /// `set`: gives a variable the value of an expression.
    Set(VarNo, Expr),
    /// `if`: the first body where the expression is not 0, else the second.
    If(Expr, Body, Body),
    /// `repeat`: the body, this number of times.
    Repeat(u64, Body),
    /// `out`: puts out the value of an expression.
    Out(Expr),
    /// A call of an operating system service.
    Service(Call),
}

/// The statements of a body, in order.
pub type Body = Items<Stmt>;
