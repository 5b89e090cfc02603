//! A law of the definitions. It is the contract of a function with an empty body.

ghost use Rattle.task_machine.specs.Standing.{CodesMayGrow};

/// A frame stands for the same list after more codes were appended.
pub fn codes_may_grow()
    ensures { CodesMayGrow }
{}
