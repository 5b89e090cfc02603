//! The interrupt sources between the arrival of an interrupt and its routine: which arrivals are
//! still to come, which interrupts are held, which sources are enabled, and which interrupt is
//! accepted next. The OSEK/VDX standard: time-triggered interrupts and their enabling by the
//! dispatcher table; what is held and what is lost is the bench's own.
#![tactic(auto)]

mod busy;
mod flags;
mod gates;
mod laws;
mod queues;

pub use busy::Busy;
pub use gates::{Arrived, Gates};
pub use laws::next_is_least;
