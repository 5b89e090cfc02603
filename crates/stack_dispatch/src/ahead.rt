//! How far the runner sees ahead.

use tt_base::Tick;

/// How far the runner sees ahead.
#[derive(Clone, Copy)]
pub(crate) struct Ahead {
    /// Nothing is due at a tick from the present one on up to below this one.
    pub(crate) next: Tick,
    /// Whether an owner has ended since the acceptances were tried last.
    pub(crate) ended: bool,
}
