//! The preemption stack: the unfinished activations of tasks and interrupt service routines. The
//! top one runs.
#![tactic(auto)]

mod stack;
mod top;

pub use stack::{ISRS, RunStack, StackFrame, TASKS};
pub use top::Top;
