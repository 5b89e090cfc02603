//! What rows say besides the round, names and bodies.

ghost use Rattle.std.specs.Prelude.{◌≡◌, [], ◌++◌, IfOk, OnOk};
ghost use Rattle.tt_parts.specs.Entries.{arrival_in, activates, demand_in, entry_in, rounds_in, start_in, time_in, value_in, var_in};
ghost use Rattle.tt_parts.specs.Located.{at_then};
ghost use Rattle.tt_parts.specs.Parts.{nothing_said, said_in, said_then};

use crate::entries::{Arrival, Entry, Value};
use crate::located::{At, put};
use crate::naming::number_named;
use std::alloc::Global;
use task_lang::Demand;
use tt_base::{DemandNo, IsrNo, Memory, ModeNo, Name, Names, Series, TaskNo};
use tt_rows::{NumberedRow, Row};
use tt_world::{Activation, Enable};

/// What rows say besides the round, names and bodies.
#[derive(Drop)]
pub struct Said {
    /// The initial values of the variables.
    pub vars: Series<At<i32>>,
    pub demands: Series<At<Demand>>,
    /// The rows of dispatcher tables.
    pub entries: Series<At<Entry>>,
    /// The modes at tick 0.
    pub starts: Series<At<ModeNo>>,
    /// The numbers of rounds.
    pub counts: Series<At<u64>>,
    /// The values of demands.
    pub values: Series<At<Value>>,
    /// The interrupts.
    pub arrivals: Series<At<Arrival>>,
    /// The global times, in ticks.
    pub times: Series<At<u64>>,
}

fn var_in(row: &Row) -> Option<i32>
    ensures { result ≡ var_in row.now }
{
    match row {
        Row::Var(_, value) => Some(*value),
        _ => None,
    }
}

fn demand_in(row: &Row) -> Option<Demand>
    ensures { result ≡ demand_in row.now }
{
    match row {
        Row::Demand(_, most, usual) => Some(Demand {
            most: *most,
            usual: *usual,
        }),
        _ => None,
    }
}

fn activates(
    names: &Names,
    offset: u64,
    mode: Name,
    task: Name,
    deadline: u64,
    stringent: bool,
) -> Option<Entry>
    ensures { result ≡ activates names.now offset mode task deadline stringent }
{
    let activation = Activation {
        offset,
        task: TaskNo(number_named(names, task)),
        deadline,
        stringent,
    };
    Some(Entry::Activates(ModeNo(number_named(names, mode)), activation))
}

fn entry_in(names: &Names, row: &Row) -> Option<Entry>
    ensures { result ≡ entry_in names.now row.now }
{
    match row {
        Row::AtStringent(offset, mode, task, deadline) => {
            activates(names, *offset, *mode, *task, *deadline, true)
        }
        Row::AtNonstringent(offset, mode, task, deadline) => {
            activates(names, *offset, *mode, *task, *deadline, false)
        }
        Row::AtEnable(offset, mode, isr) => {
            let enable = Enable {
                offset: *offset,
                isr: IsrNo(number_named(names, *isr)),
            };
            Some(Entry::Enables(ModeNo(number_named(names, *mode)), enable))
        }
        _ => None,
    }
}

fn start_in(names: &Names, row: &Row) -> Option<ModeNo>
    ensures { result ≡ start_in names.now row.now }
{
    match row {
        Row::Start(mode) => Some(ModeNo(number_named(names, *mode))),
        _ => None,
    }
}

fn rounds_in(row: &Row) -> Option<u64>
    ensures { result ≡ rounds_in row.now }
{
    match row {
        Row::Rounds(count) => Some(*count),
        _ => None,
    }
}

fn value_in(names: &Names, row: &Row) -> Option<Value>
    ensures { result ≡ value_in names.now row.now }
{
    match row {
        Row::Value(demand, ticks) => Some(Value {
            demand: DemandNo(number_named(names, *demand)),
            ticks: *ticks,
        }),
        _ => None,
    }
}

fn arrival_in(names: &Names, row: &Row) -> Option<Arrival>
    ensures { result ≡ arrival_in names.now row.now }
{
    match row {
        Row::Arrive(source, tick) => Some(Arrival {
            source: names.find(*source),
            tick: *tick,
        }),
        _ => None,
    }
}

fn time_in(row: &Row) -> Option<u64>
    ensures { result ≡ time_in row.now }
{
    match row {
        Row::Time(global) => Some(*global),
        _ => None,
    }
}

/// Nothing said. It takes no memory.
fn nothing_said(alloc: Global) -> Said
    ensures { result ≡ nothing_said }
{
    Said {
        vars: Series::new(alloc),
        demands: Series::new(alloc),
        entries: Series::new(alloc),
        starts: Series::new(alloc),
        counts: Series::new(alloc),
        values: Series::new(alloc),
        arrivals: Series::new(alloc),
        times: Series::new(alloc),
    }
}

/// Appends what a row says to what the rows above it say. A row adds to one list at most,
/// and a row of a body to none.
fn put_said(names: &Names, row: &NumberedRow, said: &mut Said) -> Result<(), Memory>
    ensures { OnOk result (said.new ≡ said_then names.now row.now said.old) }
{
    let line = row.line;
    let row = &row.row;
    match row {
        Row::Var(_, _) => put(&mut said.vars, line, var_in(row)),
        Row::Demand(_, _, _) => put(&mut said.demands, line, demand_in(row)),
        Row::AtStringent(_, _, _, _) | Row::AtNonstringent(_, _, _, _) | Row::AtEnable(_, _, _) => {
            put(&mut said.entries, line, entry_in(names, row))
        }
        Row::Start(_) => put(&mut said.starts, line, start_in(names, row)),
        Row::Rounds(_) => put(&mut said.counts, line, rounds_in(row)),
        Row::Value(_, _) => put(&mut said.values, line, value_in(names, row)),
        Row::Arrive(_, _) => put(&mut said.arrivals, line, arrival_in(names, row)),
        Row::Time(_) => put(&mut said.times, line, time_in(row)),
        _ => Ok(()),
    }
}

/// What rows say besides the round, names and bodies, in one pass.
pub fn said_in(alloc: Global, names: &Names, rows: &[NumberedRow]) -> Result<Said, Memory>
    ensures { IfOk result (λ said. said ≡ said_in names.now rows.now) }
{
    let mut said = nothing_said(alloc);
    for row in rows {
        put_said(names, row, &mut said)?;
    }
    Ok(said)
}
