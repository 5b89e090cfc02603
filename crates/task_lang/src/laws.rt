//! Laws of the definitions. Each is the contract of a function with an empty body.

ghost use Rattle.task_lang.specs.TickLaws.{TickLowersWorst, TickKeepsEach, TickKeepsNumbers, TicksEnd};

/// A tick of a list of statements lowers its worst case by at least one, where its numbers are in
/// range, it is not empty, and the script gives no demand more than its most.
pub fn tick_lowers_worst()
    ensures { TickLowersWorst }
{}

/// Where all statements pass a test, inner ones too, they still do after a tick, if the test passes
/// at what a tick makes of a statement that passes. The tests of names, of expressions, and of who
/// may have a statement are such tests.
pub fn tick_keeps_each()
    ensures { TickKeepsEach }
{}

/// A tick keeps the numbers in range, where the script gives no demand more than its most.
pub fn tick_keeps_numbers()
    ensures { TickKeepsNumbers }
{}

/// After as many ticks as the worst case of a list nothing is left of it, where its numbers are in
/// range, and the script gives no demand more than its most.
pub fn ticks_end()
    ensures { TicksEnd }
{}
