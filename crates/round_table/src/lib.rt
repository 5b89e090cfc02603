//! The dispatcher tables of a configuration, as the dispatcher of the OSEK/VDX time-triggered
//! operating system walks them in each round: an ascending list of expiry points, each with the
//! checks, the enables and the activation that are due at its offset, in ticks from the start of
//! the round. Deadline monitoring is the standard's; the points at which it looks at a deadline are
//! the bench's own.
#![tactic(auto)]

mod checks;
mod due;
mod laws;
mod merging;
mod rows;
mod table;
mod tables;

pub use due::{Due, ExpiryPoint};
pub use laws::{
    checks_are_by_offset, enables_are_by_number, points_come_after_activations, points_have_one_end,
};
pub use table::Table;
pub use tables::Tables;
