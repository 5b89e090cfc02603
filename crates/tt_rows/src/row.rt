//! The rows of a document. A row has one field for each name, number, integer and expression of
//! its line, in the order of the line. Numbers are below 10^12.

use task_lang::Op;
use tt_base::{Name, Series};

/// One word of an expression.
#[derive(Clone, Copy)]
pub enum Term {
    /// A number of 32 signed bits.
    Int(i32),
    /// A variable.
    Name(Name),
    /// An operator, which two expressions follow.
    Op(Op),
}

/// An expression in prefix form, by its words.
pub type Terms = Series<Term>;

/// A row of a document.
#[derive(Drop)]
pub enum Row {
    /// `osektime 1`: the version of the language.
    Header,
    /// `round L`: the length of a dispatcher round, in ticks.
    Round(u64),
    /// `adjust A`: the greatest correction of a round by global time, in ticks.
    Adjust(u64),
    /// `mode NAME`: an application mode.
    Mode(Name),
    /// `var NAME V`: a variable and its initial value.
    Var(Name, i32),
    /// `demand NAME MOST USUAL`: an execution demand, in ticks.
    Demand(Name, u64, u64),
    /// `task NAME STACK`: a time-triggered task and its stack words. Its body follows.
    Task(Name, u64),
    /// `isr NAME LEVEL STACK`: a time-triggered interrupt service routine. Its body follows.
    Isr(Name, u64, u64),
    /// `isr NAME LEVEL STACK DISTANCE`: one whose interrupts are at least DISTANCE ticks apart. Its
    /// body follows.
    IsrFar(Name, u64, u64, u64),
    /// `osek NAME PRIORITY`: a task of the OSEK subsystem, at first suspended. Its body follows.
    Osek(Name, u64),
    /// `osek NAME PRIORITY auto`: one that is ready at tick 0. Its body follows.
    OsekAuto(Name, u64),
    /// `oisr NAME PRIORITY`: an interrupt service routine of the OSEK subsystem. Its body follows.
    Oisr(Name, u64),
    /// `hook error`: the body of ttErrorHook follows.
    HookError,
    /// `hook shutdown`: the body of ttShutdownHook follows.
    HookShutdown,
    /// `at OFFSET MODE activate TASK DEADLINE stringent`: a row of the mode's dispatcher table.
    AtStringent(u64, Name, Name, u64),
    /// `at OFFSET MODE activate TASK DEADLINE nonstringent`: a row of the mode's dispatcher table.
    AtNonstringent(u64, Name, Name, u64),
    /// `at OFFSET MODE enable ISR`: an interrupt re-enable of the mode's dispatcher table.
    AtEnable(u64, Name, Name),
    /// `start MODE`: the mode at tick 0.
    Start(Name),
    /// `rounds N`: the number of rounds of the run.
    Rounds(u64),
    /// `value DEM N`: the next value of a demand, in ticks.
    Value(Name, u64),
    /// `arrive SRC T`: an interrupt at tick T.
    Arrive(Name, u64),
    /// `time G`: the next global time, in ticks.
    Time(u64),
    /// `work N`: N ticks of work.
    Work(u64),
    /// `take DEM`: as much work as the demand says.
    Take(Name),
    /// `set VAR E`: gives a variable the value of an expression.
    Set(Name, Terms),
    /// `if E`: the statements that follow where the value is not 0.
    If(Terms),
    /// `else`: the statements that follow where it is 0.
    Else,
    /// `repeat N`: the statements that follow, N times.
    Repeat(u64),
    /// `end`: the end of a body or a block.
    End,
    /// `out E`: puts out the value of an expression.
    Out(Terms),
    /// `switch MODE`: the service ttSwitchAppMode.
    Switch(Name),
    /// `sync`: the service ttSyncTimes.
    Sync,
    /// `shutdown`: the service ttShutdownOS.
    Shutdown,
    /// `activate OSEK`: the service ActivateTask.
    Activate(Name),
    /// `chain OSEK`: the service ChainTask.
    Chain(Name),
    /// `terminate`: the service TerminateTask.
    Terminate,
}

/// A row with the number of its line, counted from 1.
#[derive(Drop)]
pub struct NumberedRow {
    pub line: u32,
    pub row: Row,
}

/// The rows of a document in order.
pub type Rows = Series<NumberedRow>;
