//! Laws of the dispatcher tables of every configuration. Each is the contract of a function with
//! an empty body.

ghost use Rattle.round_table.specs.TableLaws.{ChecksAreByOffset, EnablesAreByNumber, PointsComeAfterActivations, PointsHaveOneEnd};

/// A monitoring point comes after the activation that it is the point of.
pub fn points_come_after_activations()
    ensures { PointsComeAfterActivations }
{}

/// No mode has both a monitoring point at the round's length less the greatest correction and one
/// at the round's end.
pub fn points_have_one_end()
    ensures { PointsHaveOneEnd }
{}

/// The checks of one point, and those at the end of a round, ascend by the offset of their
/// activations.
pub fn checks_are_by_offset()
    ensures { ChecksAreByOffset }
{}

/// The enables of an offset ascend by the number of the routine.
pub fn enables_are_by_number()
    ensures { EnablesAreByNumber }
{}
