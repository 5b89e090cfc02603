//! What the check promises of every run. Each law is the contract of a function with an empty body.

ghost use Rattle.schedule_check.specs.DeadlineLaws.{IsrIsBounded, NoMiss};
ghost use Rattle.schedule_check.specs.StackLaw.{StackIsBounded};

/// Where the script keeps its bounds, a time-triggered routine takes at most (2 + n) times its
/// budget in any k consecutive instants of a run, where n is the number of its enables there; for a
/// routine with a distance, n is the smaller of that and the number of distances that begin in k
/// ticks.
pub fn isr_is_bounded()
    ensures { IsrIsBounded }
{}

/// Where the check says yes and the script keeps its bounds, no check of a deadline is missed, and
/// each activation whose deadline the run reaches has ended by its deadline.
pub fn no_miss()
    ensures { NoMiss }
{}

/// In every run, no instant is deeper than the depth bound, and none takes more stack words than
/// the words bound. This holds also where the script does not keep its bounds, and where the check
/// says no.
pub fn stack_is_bounded()
    ensures { StackIsBounded }
{}
