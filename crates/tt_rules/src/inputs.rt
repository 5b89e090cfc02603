//! Rules 25 to 28: the script.

ghost use Rattle.std.specs.Prelude.{◌≡◌, nat_le, IfOk, OnOk};
ghost use Rattle.std.specs.HashMap.{get};
ghost use Rattle.tt_base.specs.declared.names.Declared.{Declared};
ghost use Rattle.tt_rules.specs.Document.{Document};
ghost use Rattle.tt_rules.specs.InputRules.{lines_25, lines_26, lines_27, lines_28};
ghost use Rattle.tt_rules.specs.Latest.{is_after, is_thing, latest_at, latest_then, thing_of};
ghost use Rattle.tt_rules.specs.Lines.{least_line};
ghost use Rattle.tt_rules.specs.Table.{first_broken, input_rules};
ghost use Rattle.tt_rules.specs.TableRules.{same_pair};

use crate::broken::{Broken, first_some};
use crate::least::{least, with_line_unless};
use crate::round::is_within;
use crate::shapes::{failing, missing, past};
use std::alloc::Global;
use std::collections::HashMap;
use tt_base::{Declared, Memory, ModeNo};
use tt_parts::{Arrival, At, Said, Value};

/// Rule 25. There is exactly one start.
fn rule_25(first: u32, starts: &[At<ModeNo>]) -> Option<u32>
    ensures { result ≡ least_line (lines_25 first starts.now) }
{
    least(&[missing(starts, first), past(starts, 1)])
}

/// Rule 26. There is exactly one number of rounds, from 1 to 100,000.
fn rule_26(first: u32, counts: &[At<u64>]) -> Option<u32>
    ensures { result ≡ least_line (lines_26 first counts.now) }
{
    least(&[
        missing(counts, first),
        failing(counts, |count| is_within(1, 100_000, *count)),
        past(counts, 1),
    ])
}

/// The kind and the number of a declared thing.
fn thing_of(which: Declared) -> (usize, u16)
    ensures { result ≡ thing_of which }
{
    (which.kind().index(), which.number())
}

fn is_after(tick: u64, latest: Option<u64>) -> bool
    ensures { result ≡ is_after tick latest }
{
    match latest {
        None => true,
        Some(latest) => latest < tick,
    }
}

/// Records an arrival as the latest of its source, and answers whether it is after the one before.
/// An arrival that is not after it is not recorded.
fn note(latest: &mut HashMap<(usize, u16), u64>, arrival: &Arrival) -> Result<bool, Memory>
    ensures after { IfOk result (λ after. after
        ≡ is_after arrival.now.tick (latest_at (get same_pair latest.old) arrival.now.source)) }
    ensures latest { OnOk result ((q : _) → get same_pair latest.new q
        ≡ latest_then (is_thing q arrival.now.source) arrival.now.tick
        (get same_pair latest.old q)) }
{
    let Some(which) = arrival.source else {
        return Ok(true);
    };
    let thing = thing_of(which);
    if !is_after(arrival.tick, latest.get(&thing).copied()) {
        return Ok(false);
    }
    match latest.insert(thing, arrival.tick) {
        Ok(_) => Ok(true),
        Err(_) => Err(Memory),
    }
}

/// Rule 27. The arrivals of one source ascend strictly.
fn rule_27(alloc: Global, arrivals: &[At<Arrival>]) -> Result<Option<u32>, Memory>
    ensures { IfOk result (λ line. line ≡ least_line (lines_27 arrivals.now)) }
{
    let mut latest = HashMap::new(alloc);
    let mut least = None;
    for at in arrivals {
        let is_after = note(&mut latest, &at.part)?;
        least = with_line_unless(is_after, at.line, least);
    }
    Ok(least)
}

/// Rule 28. A script value is at most 10,000,000 ticks.
fn rule_28(values: &[At<Value>]) -> Option<u32>
    ensures { result ≡ least_line (lines_28 values.now) }
{
    least(&[failing(values, |value| value.ticks <= 10_000_000)])
}

/// The first of rules 25 to 28 that is broken. The first line is that of the first row.
pub fn inputs_broken(alloc: Global, first: u32, said: &Said) -> Result<Option<Broken>, Memory>
    ensures { IfOk result (λ broken. (d : Document) → d.declared.first ≡ first
        → d.said ≡ said.now → broken ≡ first_broken 25 input_rules d) }
{
    let arrivals = rule_27(alloc, said.arrivals.as_slice())?;
    Ok(first_some(
        25,
        &[
            rule_25(first, said.starts.as_slice()),
            rule_26(first, said.counts.as_slice()),
            arrivals,
            rule_28(said.values.as_slice()),
        ],
    ))
}
