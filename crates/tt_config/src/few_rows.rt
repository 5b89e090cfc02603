//! There are fewer rows than numbers that a line can have.

ghost use Rattle.std.specs.Prelude.{◌<◌, ◌^◌, length};
ghost use Rattle.tt_rows.specs.Sound.{AreSound};

use tt_rows::NumberedRow;

/// Lines ascend and have numbers of 32 bits, so there are fewer than 2^32 rows. It looks only at
/// the last row.
pub(crate) fn rows_are_few(rows: &[NumberedRow])
    requires { AreSound rows.now }
    ensures { length rows.now < 2 ^ 32 }
{
    if let Some(last) = rows.last() {
        number_fits(last.line);
    }
}

/// The number of a line has 32 bits.
fn number_fits(line: u32)
    ensures { line < 2 ^ 32 }
{}
