//! What a run is made of: the owners of its ticks, the services that they call, and the events.

use crate::number::{IsrNo, ModeNo, OisrNo, OsekNo, TaskNo, Tick};

/// Who takes a tick, or whose line an event is.
#[derive(Clone, Copy, Debug, Default, PartialEq, Eq)]
pub enum Owner {
    /// A time-triggered task.
    Task(TaskNo),
    /// A time-triggered interrupt service routine.
    Isr(IsrNo),
    /// A task of the OSEK subsystem.
    Osek(OsekNo),
    /// An interrupt service routine of the OSEK subsystem.
    Oisr(OisrNo),
    /// The body of ttErrorHook.
    ErrorHook,
    /// The body of ttShutdownHook.
    ShutdownHook,
    /// Nobody: the processor is idle.
    #[default]
    Idle,
}

/// A call of an operating system service.
#[derive(Clone, Copy, PartialEq, Eq)]
pub enum Call {
    /// ttSwitchAppMode, to this application mode.
    Switch(ModeNo),
    /// ttSyncTimes.
    Sync,
    /// ttShutdownOS.
    Shutdown,
    /// ActivateTask.
    Activate(OsekNo),
    /// ChainTask.
    Chain(OsekNo),
    /// TerminateTask.
    Terminate,
}

/// One line of a trace. `at` is its stamp in ticks.
#[derive(Clone, Copy)]
pub enum Event {
    /// The operating system starts in this mode.
    OsStart {
        at: Tick,
        mode: ModeNo,
    },
    /// A dispatcher round begins. Rounds are counted from 1.
    Round {
        at: Tick,
        number: u32,
        mode: ModeNo,
    },
    /// The round gets longer or shorter by this many ticks.
    Correct {
        at: Tick,
        by: i64,
    },
    /// Deadline monitoring looks at an activation of this task.
    Check {
        at: Tick,
        task: TaskNo,
        met: bool,
    },
    /// The dispatcher enables an interrupt source again.
    Enable {
        at: Tick,
        isr: IsrNo,
    },
    /// An interrupt occurs and is held.
    Arrive {
        at: Tick,
        source: Owner,
    },
    /// An interrupt occurs while one of its source is held.
    Merge {
        at: Tick,
        source: Owner,
    },
    /// The routine of a held interrupt begins.
    Accept {
        at: Tick,
        source: Owner,
    },
    /// The dispatcher activates a task.
    Activate {
        at: Tick,
        task: TaskNo,
    },
    /// Another owner than before takes the tick.
    Run {
        at: Tick,
        who: Owner,
    },
    /// The owner has nothing left to do.
    End {
        at: Tick,
        owner: Owner,
    },
    /// A body puts out a value.
    Out {
        at: Tick,
        owner: Owner,
        value: i32,
    },
    /// A body calls a service, which answers the result.
    Called {
        at: Tick,
        owner: Owner,
        call: Call,
        result: u8,
    },
    /// ttErrorHook is called, for a task that missed its deadline.
    ErrorHook {
        at: Tick,
        task: TaskNo,
    },
    /// ttShutdownHook is called.
    ShutdownHook {
        at: Tick,
    },
    /// The run ends by a shutdown.
    Shutdown {
        at: Tick,
    },
    /// The run ends with its last round.
    Stop {
        at: Tick,
    },
}
