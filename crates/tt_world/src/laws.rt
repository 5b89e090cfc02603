//! Laws of every run. Each is the contract of a function with an empty body.

ghost use Rattle.tt_world.specs.RunLaws.{ScheduleEnds, PointsAreAhead, ActivationsLaw, TasksAreSingle, OwnersLaw, ChecksLaw, InterruptsLaw};

/// Every run ends. There is exactly one last instant; it and all stamps are within the most ticks
/// that the rounds can take; and the last event is the one that the status asks for.
pub fn schedule_ends()
    ensures { ScheduleEnds }
{}

/// An activation with statements left has not reached its monitoring point.
pub fn points_are_ahead()
    ensures { PointsAreAhead }
{}

/// Each round has exactly the activations of its mode with offsets below its end, each at its
/// offset, in their order. Where ttShutdownOS ends the run, the activation of its tick is included.
pub fn rounds_activate()
    ensures { ActivationsLaw }
{}

/// A task has at most one activation with statements left.
pub fn tasks_are_single()
    ensures { TasksAreSingle }
{}

/// A task has a tick where no time-triggered routine is unfinished and, of the unfinished tasks, it
/// was activated last. A time-triggered routine has it where it is the unfinished one of the
/// highest level. Anybody else has it where no task and no time-triggered routine is unfinished.
pub fn owners_are_right()
    ensures { OwnersLaw }
{}

/// Each round has the checks of the monitoring points that it reaches, each at its tick and in the
/// order of the rows, up to the first that is missed, and no others. A check is missed exactly
/// where its activation has not ended by then. ttErrorHook is called right after a missed check,
/// and nowhere else; then ttShutdownHook is called, and the run is over.
pub fn checks_monitor()
    ensures { ChecksLaw }
{}

/// Before the first Accept event of a source of interrupts, and between each two consecutive ones,
/// there is exactly one Arrive event of that source. Between two there is an End event of its
/// routine, and an Enable event where it is time-triggered. An interrupt that waits at a tick of
/// the run waits for the end of its routine or, where it is time-triggered, for an enable.
pub fn interrupts_wait()
    ensures { InterruptsLaw }
{}
