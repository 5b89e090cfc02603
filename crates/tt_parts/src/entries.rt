//! Rows of dispatcher tables, and what comes from outside.

use tt_base::{Declared, DemandNo, ModeNo, Tick};
use tt_world::{Activation, Enable};

/// A row of a mode's dispatcher table.
#[derive(Clone, Copy)]
pub enum Entry {
    /// It activates a task.
    Activates(ModeNo, Activation),
    /// It enables an interrupt source again.
    Enables(ModeNo, Enable),
}

/// The next value of a demand, in ticks.
#[derive(Clone, Copy)]
pub struct Value {
    pub demand: DemandNo,
    pub ticks: u64,
}

/// An interrupt: what its source's name declares, and when it occurs.
#[derive(Clone, Copy)]
pub struct Arrival {
    pub source: Option<Declared>,
    pub tick: Tick,
}
