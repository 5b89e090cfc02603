//! What a run gives.

use tt_base::Tick;
use tt_world::RunEnd;

/// The result of a run. All events of the schedule are counted, whatever the recorder keeps.
#[derive(Clone, Copy, Debug, PartialEq, Eq)]
pub struct Report {
    /// The tick of the last event.
    pub ticks: Tick,
    /// The number of the last round that began.
    pub rounds: u32,
    /// How many events there were.
    pub events: u64,
    /// How many of them activated a task.
    pub activations: u64,
    /// The greatest depth of the stack: how many activations of tasks and time-triggered routines
    /// were unfinished at once, at an instant that took a tick.
    pub deepest: u64,
    /// The most words of stack that the unfinished ones took at once.
    pub words: u64,
    /// How the run ended.
    pub end: RunEnd,
}

/// The answer of a run.
#[derive(Clone, Copy, Debug, PartialEq, Eq)]
pub enum Run {
    /// It ended, and the recorder noted all events.
    Ended(Report),
    /// The recorder did not keep an event.
    Failed,
}
