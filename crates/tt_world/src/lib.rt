//! What is fixed before a run, the world of a run, and the definitions of a run: the parts of an
//! instant in their order, and the schedule instant by instant.
#![tactic(auto)]

mod config;
mod laws;
mod script;
mod world;

pub use config::{
    Activation, Config, ConfigParts, Enable, IsrDef, ModeDef, OisrDef, OsekDef, TaskDef,
};
pub use laws::{
    checks_monitor, interrupts_wait, owners_are_right, points_are_ahead, rounds_activate,
    schedule_ends, tasks_are_single,
};
pub use script::{Arrivals, Script, ScriptParts};
pub use world::{Point, RunEnd, Runner};
