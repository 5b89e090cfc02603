//! What every crate of the bench builds on: the answer 'out of memory', numbers of declared things,
//! ticks, events, names, a list type, and a counter of steps.
#![tactic(auto)]

mod event;
mod name;
mod names;
mod number;
mod series;
mod steps;

pub use event::{Call, Event, Owner};
pub use name::{NAME_BYTES, Name};
pub use names::{Declared, NameEntry, NameKind, Names};
pub use number::{DemandNo, IsrNo, Memory, ModeNo, OisrNo, OsekNo, TaskNo, Tick, VarNo};
pub use series::{Series, copy_lists};
pub use steps::{Blank, Ledger, Steps};
