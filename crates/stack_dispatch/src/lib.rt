//! A run of a configuration and a script, which keeps frames, reports its events to a recorder, and
//! goes from one instant at which something may happen to the next.
#![tactic(auto)]

mod ahead;
mod bench;
mod dispatcher;
mod first;
mod hooks;
mod interrupts;
mod log;
mod monitoring;
mod peaks;
mod programs;
mod report;
mod rounds;
mod run;
mod runner;
mod state;
mod tick;
mod told;
mod took;

pub use bench::Bench;
pub use report::{Report, Run};
pub use tt_world::RunEnd;
