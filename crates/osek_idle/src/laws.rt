//! Laws of the definitions. Each is the contract of a function with an empty body.

ghost use Rattle.osek_idle.specs.Laws.{CodesMayGrow, PicksAreTheRunners};

/// After more codes are appended, the frames of the subsystem stand for the same lists.
pub fn osek_codes_may_grow()
    ensures { CodesMayGrow }
{}

/// Between two ticks, the one that is picked is the one that the definitions of a run pick among
/// the routines and tasks of the subsystem.
pub fn picks_are_the_runners()
    ensures { PicksAreTheRunners }
{}
