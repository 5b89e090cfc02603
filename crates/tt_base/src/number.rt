//! The numbers of declared things, each counted from 0 per kind in the order of declaration, and
//! the answer 'out of memory'.

ghost use Rattle.std.specs.Prelude.{◌≡◌};

use std::alloc::{AllocError, AllocFailed};

/// Out of memory. It is the one answer that no contract ties to a cause.
#[derive(Clone, Copy, Debug, PartialEq, Eq)]
pub struct Memory;

/// So that `?` on a call that allocates answers `Memory`.
impl From<AllocError> for Memory {
    ghost from_gives = { λ _ e. e ≡ record {} };

    fn from(_error: AllocError) -> Memory {
        Memory
    }
}

/// So that `?` on a call that allocates room for a value answers `Memory`. The value is given up.
impl<T: Drop> From<AllocFailed<T>> for Memory {
    ghost from_gives = { λ _ e. e ≡ record {} };

    fn from(_error: AllocFailed<T>) -> Memory {
        Memory
    }
}

/// A time-triggered task.
#[derive(Clone, Copy, Debug, PartialEq, Eq)]
pub struct TaskNo(pub u16);

/// A time-triggered interrupt service routine.
#[derive(Clone, Copy, Debug, PartialEq, Eq)]
pub struct IsrNo(pub u16);

/// A basic task of the OSEK subsystem.
#[derive(Clone, Copy, Debug, PartialEq, Eq)]
pub struct OsekNo(pub u16);

/// An interrupt service routine of the OSEK subsystem.
#[derive(Clone, Copy, Debug, PartialEq, Eq)]
pub struct OisrNo(pub u16);

/// An application mode.
#[derive(Clone, Copy, Debug, PartialEq, Eq)]
pub struct ModeNo(pub u16);

/// A variable of the task language.
#[derive(Clone, Copy, Debug, PartialEq, Eq)]
pub struct VarNo(pub u16);

/// An execution demand.
#[derive(Clone, Copy, Debug, PartialEq, Eq)]
pub struct DemandNo(pub u16);

/// A point of time, in ticks from the start of the run.
pub type Tick = u64;
