//! What needs no number of a name: the round, and the names.

ghost use Rattle.std.specs.Prelude.{◌≡◌, IfOk, OnOk};
ghost use Rattle.tt_parts.specs.Entries.{adjust_in, round_in};
ghost use Rattle.tt_parts.specs.Parts.{declarations_of, declared_then, first_line, none_declared};

use crate::located::{At, put};
use crate::naming::declared_in;
use std::alloc::Global;
use tt_base::{Memory, NameEntry, Series};
use tt_rows::{NumberedRow, Row};

/// What needs no number of a name.
#[derive(Drop)]
pub struct Declarations {
    /// The line of the first row, 1 where there is none.
    pub first: u32,
    /// The lengths of a round, in ticks.
    pub rounds: Series<At<u64>>,
    /// The greatest corrections of a round, in ticks.
    pub adjusts: Series<At<u64>>,
    pub names: Series<At<NameEntry>>,
}

/// The line of the first row, 1 where there is none.
fn first_line(rows: &[NumberedRow]) -> u32
    ensures { result ≡ first_line rows.now }
{
    match rows.first() {
        None => 1,
        Some(row) => row.line,
    }
}

fn round_in(row: &Row) -> Option<u64>
    ensures { result ≡ round_in row.now }
{
    match row {
        Row::Round(length) => Some(*length),
        _ => None,
    }
}

fn adjust_in(row: &Row) -> Option<u64>
    ensures { result ≡ adjust_in row.now }
{
    match row {
        Row::Adjust(most) => Some(*most),
        _ => None,
    }
}

/// Nothing declared so far, in rows the first of which has this line. It takes no memory.
fn none_declared(alloc: Global, first: u32) -> Declarations
    ensures { result ≡ none_declared first }
{
    Declarations {
        first,
        rounds: Series::new(alloc),
        adjusts: Series::new(alloc),
        names: Series::new(alloc),
    }
}

/// Appends what a row declares to what the rows above it declare.
fn put_declared(row: &NumberedRow, declared: &mut Declarations) -> Result<(), Memory>
    ensures { OnOk result (declared.new ≡ declared_then row.now declared.old) }
{
    let line = row.line;
    let row = &row.row;
    match row {
        Row::Round(_) => put(&mut declared.rounds, line, round_in(row)),
        Row::Adjust(_) => put(&mut declared.adjusts, line, adjust_in(row)),
        _ => put(&mut declared.names, line, declared_in(row)),
    }
}

/// What rows say that needs no number of a name, in one pass.
pub fn declarations_of(alloc: Global, rows: &[NumberedRow]) -> Result<Declarations, Memory>
    ensures { IfOk result (λ d. d ≡ declarations_of rows.now) }
{
    let mut declared = none_declared(alloc, first_line(rows));
    for row in rows {
        put_declared(row, &mut declared)?;
    }
    Ok(declared)
}
