//! The schedule check: before any run, whether each activation of a configuration has finished by
//! its deadline in every run of a script that keeps its declared bounds, when it has finished at
//! the latest, and how deep activations and routines are nested at most. The formulas are the
//! bench's own; deadlines and their monitoring are the OSEK/VDX standard's. No call takes memory.
#![tactic(auto)]

mod answers;
mod bounds;
mod counts;
mod demands;
mod laws;
mod responses;
mod windows;

pub use answers::{CheckAnswer, check};
pub use bounds::kept;
pub use demands::demand;
pub use laws::{isr_is_bounded, no_miss, stack_is_bounded};
pub use responses::response;
pub use windows::{depth_bound, words_bound};
