//! Instructions.

use task_lang::Op;
use tt_base::{Call, DemandNo, VarNo};

/// One term of an expression.
#[derive(Clone, Copy)]
pub enum Term {
    /// A number.
    Const(i32),
    /// The value that a variable has.
    Var(VarNo),
    /// An operator. The terms of its two operands follow.
    Apply(Op),
}

/// One instruction. Where it has an expression, the terms follow it in prefix form.
#[derive(Clone, Copy)]
pub enum Instr {
    /// This many ticks of computing.
    Work(u64),
    /// One tick, then the ticks that a demand is given.
    Take(DemandNo),
    /// A variable gets the value of the expression.
    Set(VarNo),
    /// Where the expression is 0, this number of instructions after it is skipped.
    If(usize),
    /// This many instructions are skipped, in no time.
    Skip(usize),
    /// The counter that it sets, and the turns of the body that follows.
    Repeat(u8, u16),
    /// The end of the body of a `repeat`: while its counter is not 0, it goes this number of
    /// instructions back, for one more turn.
    Again(u8, usize),
    /// Puts out the value of the expression.
    Out,
    /// Calls a service.
    Service(Call),
    /// A term of an expression.
    Term(Term),
}
