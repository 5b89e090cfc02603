//! The task language: the statements that a body is made of, the value of an expression, the ticks
//! that a body takes at most, and the laws of one tick of what is left of a body.
#![tactic(auto)]

pub mod allowed;
mod demand;
mod laws;
mod syntax;
mod tick;
pub mod value;
mod vars;
pub mod worst;

pub use allowed::OwnerKind;
pub use demand::{Cursors, Demand, Demands, Values};
pub use laws::{tick_keeps_each, tick_keeps_numbers, tick_lowers_worst, ticks_end};
pub use syntax::{Body, Expr, Op, Stmt};
pub use tick::{Effect, take};
pub use vars::Vars;
