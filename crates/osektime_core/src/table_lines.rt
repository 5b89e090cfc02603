//! The lines of the dispatcher tables.

ghost use Rattle.std.specs.Prelude.{◌≡◌, ◌≤◌, length};
ghost use Rattle.osektime_core.specs.TableText.{activation_line, check_line, enable_line, mode_line, monitoring_word, point_word};

use trace_text::Line;
use tt_base::{Declared, IsrNo, ModeNo, Names};
use tt_world::{Activation, Point};

/// The line of a mode.
pub(crate) fn mode_line(names: &Names, mode: ModeNo) -> Line
    ensures { result ≡ mode_line names.now mode }
{
    let mut line = Line::begun(b"mode");
    line.name(names, Declared::Mode(mode));
    line.end();
    line
}

/// A line whose first word is a monitoring point: its offset, or `end`.
fn begun_at(point: Point) -> Line
    ensures word { result ≡ point_word point }
    ensures few { length result ≤ 20 }
{
    match point {
        Point::At(offset) => Line::stamped(offset),
        Point::RoundEnd => Line::begun(b"end"),
    }
}

/// The line of the check of an activation, at its monitoring point.
pub(crate) fn check_line(names: &Names, point: Point, row: Activation) -> Line
    ensures { result ≡ check_line names.now point row }
{
    let mut line = begun_at(point);
    line.word(b"check");
    line.name(names, Declared::Task(row.task));
    line.end();
    line
}

/// The line of the enable of a routine at an offset.
pub(crate) fn enable_line(names: &Names, offset: u64, isr: IsrNo) -> Line
    ensures { result ≡ enable_line names.now offset isr }
{
    let mut line = Line::stamped(offset);
    line.word(b"enable");
    line.name(names, Declared::Isr(isr));
    line.end();
    line
}

/// How a deadline is monitored.
fn monitoring_word(stringent: bool) -> &'static [u8]
    ensures word { result.now ≡ monitoring_word stringent }
    ensures few { length result.now ≤ 12 }
{
    if stringent {
        b"stringent"
    } else {
        b"nonstringent"
    }
}

/// The line of a row that activates.
pub(crate) fn activation_line(names: &Names, row: Activation) -> Line
    ensures { result ≡ activation_line names.now row }
{
    let mut line = Line::stamped(row.offset);
    line.word(b"activate");
    line.name(names, Declared::Task(row.task));
    line.number(row.deadline);
    line.word(monitoring_word(row.stringent));
    line.end();
    line
}
