//! The machine of task code: a body as flat code, an unfinished activation as a small frame in it,
//! and the ticks of a frame.
#![tactic(auto)]

mod codes;
mod emit;
mod env;
mod expr;
mod frame;
mod instr;
mod laws;
mod rest;
mod ticks;

pub use codes::{Code, Codes};
pub use emit::compile;
pub use env::Env;
pub use frame::Frame;
pub use laws::codes_may_grow;
pub use ticks::{Progress, advance};
