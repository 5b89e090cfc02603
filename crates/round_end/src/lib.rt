//! The dispatcher round of the OSEK/VDX time-triggered operating system: its offsets, its length
//! with the correction by global time, the application mode of the next round, and its end.
#![tactic(auto)]

mod correction;
mod state;

pub use state::{RoundState, RoundStep};
