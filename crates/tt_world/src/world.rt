//! What the definitions of a run and the code have in common.

use tt_base::{IsrNo, OisrNo, OsekNo, TaskNo};

/// Where deadline monitoring looks at an activation of a round.
#[derive(Clone, Copy)]
pub enum Point {
    /// At this offset of the round, in ticks.
    At(u64),
    /// At the end of the round.
    RoundEnd,
}

/// How a run ends.
#[derive(Clone, Copy, Debug, PartialEq, Eq)]
pub enum RunEnd {
    /// The last round has ended.
    LastRound,
    /// This task has missed its deadline.
    Missed(TaskNo),
    /// ttShutdownOS was called.
    Shutdown,
}

/// Who takes the tick of an instant.
#[derive(Clone, Copy)]
pub enum Runner {
    /// The time-triggered routine of this number.
    Isr(IsrNo),
    /// The job at this place in the list of the round's jobs.
    Job(usize),
    /// The routine of the OSEK subsystem of this number.
    Oisr(OisrNo),
    /// The task of the OSEK subsystem of this number.
    Osek(OsekNo),
    /// Nobody: the processor is idle.
    Nobody,
}
