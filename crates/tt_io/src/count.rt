//! Counts that saturate at their last value.

ghost use Rattle.std.specs.Prelude.{◌≡◌};
ghost use Rattle.tt_io.specs.Count.{counted};

/// A count after some more. The count is a parameter, because a proof knows the range of a
/// parameter; it would not know that of a field of a type that has a type parameter.
pub(crate) fn count_more(before: u64, more: usize) -> u64
    ensures { result ≡ counted before more }
{
    before.saturating_add(more as u64)
}
