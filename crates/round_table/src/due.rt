//! What is due at an offset of the round.

/// What is due at an offset of the round: half-open ranges of places in the table's lists, and the
/// activation.
#[derive(Clone, Copy)]
pub struct Due {
    /// The place of the first check.
    pub checks_from: usize,
    /// The place after the last check.
    pub checks_to: usize,
    /// The place of the first enable.
    pub enables_from: usize,
    /// The place after the last enable.
    pub enables_to: usize,
    /// The entry number of the row that activates, if there is one.
    pub activation: Option<usize>,
}

/// An offset of the round at which something is due, and what is due there. The OSEK/VDX standard:
/// the expiry points of a dispatcher table.
#[derive(Clone, Copy)]
pub struct ExpiryPoint {
    /// In ticks from the start of the round.
    pub offset: u64,
    pub due: Due,
}
