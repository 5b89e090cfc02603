//! The script that parts give.

ghost use Rattle.std.specs.Prelude.{◌≡◌, ◌≤◌, IfOk};
ghost use Rattle.tt_base.specs.Names.{count_of};
ghost use Rattle.tt_config.specs.Lists.{by_number};
ghost use Rattle.tt_config.specs.Parts.{arrival_place, arrivals_with, first_mode, script_with, value_place};
ghost use Rattle.tt_parts.specs.Located.{parts};
ghost use Rattle.tt_rules.specs.Document.{first_or_zero};

use crate::lists::{by_number, count_of, parts};
use std::alloc::Global;
use tt_base::{Memory, ModeNo, NameEntry, NameKind, Series, Tick};
use tt_parts::{Arrival, At, Said, Value};
use tt_rules::first_or_zero;
use tt_world::{Arrivals, ScriptParts};

/// The mode at tick 0: the first.
fn first_mode(starts: &[At<ModeNo>]) -> ModeNo
    ensures { result ≡ first_mode (parts starts.now) }
{
    match starts.first() {
        None => ModeNo(0),
        Some(at) => at.part,
    }
}

/// The demand of a value, and the value.
fn value_place(value: &Value) -> Option<(u16, u64)>
    ensures { result ≡ value_place value.now }
{
    Some((value.demand.0, value.ticks))
}

/// The source of an arrival, if it is of this kind, and the tick.
fn arrival_place(kind: NameKind, arrival: &Arrival) -> Option<(u16, Tick)>
    ensures { result ≡ arrival_place kind arrival.now }
{
    match arrival.source {
        Some(source) if kind.index() == source.kind().index() => Some((
            source.number(),
            arrival.tick,
        )),
        _ => None,
    }
}

/// The values of each demand.
fn values_of(
    alloc: Global,
    demands: usize,
    values: &[At<Value>],
) -> Result<Series<Series<u64>>, Memory>
    ensures { IfOk result (λ lists. lists ≡ by_number demands value_place (parts values.now)) }
{
    let lists = by_number(alloc, demands, values, |value| value_place(value))?;
    Ok(lists.into_series())
}

/// The arrivals of each source of a kind.
fn arrivals_of(
    alloc: Global,
    kind: NameKind,
    names: &[At<NameEntry>],
    arrivals: &[At<Arrival>],
) -> Result<Series<Series<Tick>>, Memory>
    ensures { IfOk result (λ lists. lists
        ≡ by_number (count_of kind (parts names.now)) (arrival_place kind) (parts arrivals.now)) }
{
    let sources = count_of(names, kind);
    let lists = by_number(
        alloc,
        sources,
        arrivals,
        |arrival| arrival_place(kind, arrival),
    )?;
    Ok(lists.into_series())
}

/// The arrivals of each source.
fn arrivals_with(
    alloc: Global,
    names: &[At<NameEntry>],
    arrivals: &[At<Arrival>],
) -> Result<Arrivals, Memory>
    ensures { IfOk result (λ told. told ≡ arrivals_with (parts names.now) (parts arrivals.now)) }
{
    Ok(Arrivals {
        isrs: arrivals_of(alloc, NameKind::Isr, names, arrivals)?,
        oisrs: arrivals_of(alloc, NameKind::Oisr, names, arrivals)?,
    })
}

/// The script that parts give, of at most 100,000 rounds.
pub(crate) fn script_parts(
    alloc: Global,
    names: &[At<NameEntry>],
    said: &Said,
) -> Result<ScriptParts, Memory>
    requires { first_or_zero (parts said.now.counts) ≤ 100000 }
    ensures { IfOk result (λ script. script ≡ script_with (parts names.now) said.now) }
{
    let demands = count_of(names, NameKind::Demand);
    let times = parts(alloc, said.times.as_slice())?;
    let values = values_of(alloc, demands, said.values.as_slice())?;
    let arrivals = arrivals_with(alloc, names, said.arrivals.as_slice())?;
    Ok(ScriptParts {
        start: first_mode(said.starts.as_slice()),
        rounds: first_or_zero(said.counts.as_slice()) as u32,
        values,
        arrivals,
        times,
    })
}
