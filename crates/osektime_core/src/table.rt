//! The text of the dispatcher tables, made whole in memory.

ghost use Rattle.std.specs.Prelude.{◌≡◌, ◌++◌, ◌+◌, ◌<◌, ◌≤◌, length, slice_range, IfOk, IfSome, OnOk};
ghost use Rattle.round_table.specs.DueRows.{checks_of, enables_of};
ghost use Rattle.osektime_core.specs.TableText.{activation_lines, check_lines, enable_lines, lines_at, mode_text, table_text, texts_below};

use crate::table_lines::{activation_line, check_line, enable_line, mode_line};
use crate::text::put_bytes;
use round_table::Table;
use std::alloc::Global;
use trace_text::Line;
use tt_base::{Memory, ModeNo, Names};
use tt_world::{Config, Point};

/// Appends a line.
fn put(text: &mut Vec<u8>, line: &Line) -> Result<(), Memory>
    ensures { OnOk result (text.new.items ≡ text.old.items ++ line.now) }
{
    put_bytes(text, line.as_bytes())
}

/// Appends the checks in a half-open range of places, all with this monitoring point.
fn put_checks(
    text: &mut Vec<u8>,
    names: &Names,
    table: &Table,
    point: Point,
    from: usize,
    to: usize,
) -> Result<(), Memory>
    requires { to ≤ length (checks_of table.now) }
    ensures { OnOk result (text.new.items
        ≡ text.old.items ++ check_lines names.now table.now.mode point
        (slice_range (checks_of table.now) from to)) }
{
    for place in from..to {
        let row = table.activation(table.check_at(place));
        put(text, &check_line(names, point, row))?;
    }
    Ok(())
}

/// Appends the enables in a half-open range of places, all at this offset.
fn put_enables(
    text: &mut Vec<u8>,
    names: &Names,
    table: &Table,
    offset: u64,
    from: usize,
    to: usize,
) -> Result<(), Memory>
    requires { to ≤ length (enables_of table.now) }
    ensures { OnOk result (text.new.items
        ≡ text.old.items ++ enable_lines names.now offset
        (slice_range (enables_of table.now) from to)) }
{
    for place in from..to {
        put(text, &enable_line(names, offset, table.enable_at(place)))?;
    }
    Ok(())
}

/// Appends the activation of an entry number, if there is one.
fn put_activation(
    text: &mut Vec<u8>,
    names: &Names,
    table: &Table,
    entry: Option<usize>,
) -> Result<(), Memory>
    requires { IfSome entry (λ place. place < length table.now.mode.activations) }
    ensures { OnOk result (text.new.items
        ≡ text.old.items ++ activation_lines names.now table.now.mode entry) }
{
    match entry {
        None => Ok(()),
        Some(place) => put(text, &activation_line(names, table.activation(place))),
    }
}

/// Appends what is due at an offset of the round.
fn put_offset(text: &mut Vec<u8>, names: &Names, table: &Table, offset: u64) -> Result<(), Memory>
    ensures { OnOk result (text.new.items
        ≡ text.old.items ++ lines_at names.now table.now.mode offset) }
{
    let due = table.due(offset);
    let point = Point::At(offset);
    put_checks(text, names, table, point, due.checks_from, due.checks_to)?;
    put_enables(text, names, table, offset, due.enables_from, due.enables_to)?;
    put_activation(text, names, table, due.activation)
}

/// Appends what is due at each offset of the round, in ascending order. Offsets at which nothing
/// is due are passed over.
fn put_offsets(text: &mut Vec<u8>, names: &Names, table: &Table) -> Result<(), Memory>
    ensures { OnOk result (text.new.items
        ≡ text.old.items ++ texts_below (lines_at names.now table.now.mode) (table.now.limit + 1)) }
{
    let mut next = Some(0);
    while let Some(offset) = next {
        put_offset(text, names, table, offset)?;
        next = table.next_after(offset);
    }
    Ok(())
}

/// Appends the table of a mode.
fn put_mode(alloc: Global, text: &mut Vec<u8>, config: &Config, mode: ModeNo) -> Result<(), Memory>
    requires { mode.0 < length config.now.modes }
    ensures { OnOk result (text.new.items ≡ text.old.items ++ mode_text config.now mode) }
{
    let parts = config.parts();
    let names = &parts.names;
    let table = Table::build(alloc, config, mode)?;
    put(text, &mode_line(names, mode))?;
    put_offsets(text, names, &table)?;
    let (from, to) = table.end_checks(parts.round - parts.adjust + 1);
    put_checks(text, names, &table, Point::RoundEnd, from, to)
}

/// The text of the dispatcher tables of a configuration, in time that is n log n in its rows: for
/// each mode by number its name, then in ascending order of offset the checks, the enables and the
/// activation that are due there, and last the checks at the round's end. Its only error is
/// `Memory`.
pub(crate) fn table_text(alloc: Global, config: &Config) -> Result<Vec<u8>, Memory>
    ensures { IfOk result (λ text. text.items ≡ table_text config.now) }
{
    let mut text = Vec::new(alloc);
    for number in 0..config.parts().modes.as_slice().len() {
        put_mode(alloc, &mut text, config, ModeNo(number as u16))?;
    }
    Ok(text)
}
