//! What is on top of a stack.

use task_machine::Frame;
use tt_base::Owner;

/// The one that runs.
#[derive(Clone, Copy)]
pub struct Top {
    /// Whose frame it is.
    pub owner: Owner,
    /// Where it is in its body.
    pub frame: Frame,
}
