//! What the tick of the one who runs gives.

use tt_base::{Call, Tick};
use tt_world::RunEnd;

/// What the tick of the one who runs did besides the ticks of its body.
#[derive(Clone, Copy)]
pub(crate) enum Did {
    Nothing,
    /// It output a value.
    Out(i32),
    /// It called a service, which answered this result.
    Called(Call, u8),
}

/// The ticks of the one who runs.
#[derive(Clone, Copy)]
pub(crate) struct Taken {
    pub(crate) did: Did,
    /// Whether the one who ran has ended.
    pub(crate) ended: bool,
}

/// What the ticks of the one who runs give.
#[derive(Clone, Copy)]
pub(crate) struct Ticked {
    /// How they end the run, if they do.
    pub(crate) end: Option<RunEnd>,
    /// Whether the one who ran has ended.
    pub(crate) ended: bool,
    /// The last of the ticks.
    pub(crate) last: Tick,
}

/// Instants that were passed.
#[derive(Clone, Copy)]
pub(crate) struct Passed {
    /// How they end the run, if they do.
    pub(crate) end: Option<RunEnd>,
    /// The tick of the last of them.
    pub(crate) last: Tick,
}
