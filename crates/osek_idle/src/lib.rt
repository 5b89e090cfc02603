//! The OSEK/VDX subsystem in idle time: basic tasks of conformance class BCC1, and interrupt
//! service routines above them.
#![tactic(auto)]

mod laws;
mod slot;
mod slots;
mod subsystem;

pub use laws::{osek_codes_may_grow, picks_are_the_runners};
pub use subsystem::Osek;
