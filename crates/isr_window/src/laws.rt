//! Laws of the sources. Each is the contract of a function with an empty body.

ghost use Rattle.isr_window.specs.NextLaw.{NextIsLeast};

/// Where the ticks of a source ascend, none of its arrivals to come is before the next arrival, and
/// where there is no next arrival, none is to come.
pub fn next_is_least()
    ensures { NextIsLeast }
{}
