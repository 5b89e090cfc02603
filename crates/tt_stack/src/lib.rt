//! The time-triggered part of a run's state: the activations of the present round and the
//! interrupt service routines, as frames on a stack.
#![tactic(auto)]

mod state;
mod words;

pub use state::TtStack;
pub use words::DeclaredWords;
