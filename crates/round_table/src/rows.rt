//! Rows in ascending order of offset.

ghost use Rattle.std.specs.Prelude.{◌≡◌, ℕ, suc, nat_lt, slice_get};
ghost use Rattle.std.specs.Option.{option_map};
ghost use Rattle.std.specs.List.Sorted.{IsNonDecreasingBy};
ghost use Rattle.round_table.specs.Cuts.{IsCut};

use crate::checks::Check;
use crate::due::ExpiryPoint;
use tt_world::{Activation, Enable};

/// What has an offset in the round.
pub(crate) trait Row {
    ghost at: { Self → ℕ };

    /// Its offset, in ticks from the start of the round.
    fn offset(&self) -> u64
        ensures { result ≡ at self.now };
}

impl Row for u64 {
    ghost at = { λ offset. offset };

    fn offset(&self) -> u64 {
        *self
    }
}

impl Row for Activation {
    ghost at = { λ row. row.offset };

    fn offset(&self) -> u64 {
        self.offset
    }
}

impl Row for Enable {
    ghost at = { λ row. row.offset };

    fn offset(&self) -> u64 {
        self.offset
    }
}

impl Row for Check {
    ghost at = { λ check. check.offset };

    fn offset(&self) -> u64 {
        self.offset
    }
}

impl Row for ExpiryPoint {
    ghost at = { λ point. point.offset };

    fn offset(&self) -> u64 {
        self.offset
    }
}

/// The place after the rows that come before an offset.
pub(crate) fn before<T: Row>(rows: &[T], offset: u64) -> usize
    requires { IsNonDecreasingBy T.at rows.now }
    ensures { IsCut (λ row. nat_lt (T.at row) offset) rows.now result }
{
    rows.partition_point(|row| row.offset() < offset)
}

/// The place after the rows that come at an offset or before it.
pub(crate) fn up_to<T: Row>(rows: &[T], offset: u64) -> usize
    requires { IsNonDecreasingBy T.at rows.now }
    ensures { IsCut (λ row. nat_lt (T.at row) (suc offset)) rows.now result }
{
    rows.partition_point(|row| row.offset() <= offset)
}

/// The offset of the row at a place, if there is one.
pub(crate) fn offset_at<T: Row>(rows: &[T], place: usize) -> Option<u64>
    ensures { result ≡ option_map T.at (slice_get rows.now place) }
{
    rows.get(place).map(|row| row.offset())
}

/// The item at a place, if there is one.
pub(crate) fn item<T: Copy>(items: &[T], place: usize) -> Option<T>
    ensures { result ≡ slice_get items.now place }
{
    items.get(place).copied()
}
